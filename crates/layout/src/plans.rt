// The plan of a heap: sizes that lie within their ranges, so that a layout is computed from them. Whoever holds one need not ask.
ghost use Rattle.layout.specs.Sizes.{SizesOk};

use crate::Sizes;

#[derive(Clone, Copy)]
pub struct Plan {
    pub sizes: Sizes,
    pub ghost fits: { SizesOk sizes },
}
