// The four working lists, gray, grayagain, weak and the queue (document 01, 'Sizes' and the damage rule): each is a counted
// part of the words. A `List` says where one lies, so what they share is here once.
#![tactic(auto)]

ghost use Rattle.std.specs.Prelude.{◌≡◌, ◌+◌, ◌*◌, ◌≤◌, ◌<◌, length};
ghost use Rattle.value.specs.Values.{put3};
ghost use Rattle.lists.specs.Lists.{RoomFor, kind_of, index_of, generation_of, item_of, item_in, put_item, length_of, set_length, place, item_at, stored, push, taken, pop, cleared};

use layout::List;
use value::{FuncRef, TableRef, ThreadRef, UdRef};

// What a list holds.
#[derive(Clone, Copy)]
pub enum Item {
    Table(TableRef),
    Function(FuncRef),
    Userdata(UdRef),
    Thread(ThreadRef),
    // The main thread.
    Main,
    // An item of no kind: its users take it out at cost 0.
    Unknown,
}

// The kind of an item: the tag of its value, and 9 for the main thread.
pub fn kind_of(x: Item) -> u32
    ensures { result ≡ kind_of x }
{
    match x {
        Item::Table(_) => 5,
        Item::Function(_) => 6,
        Item::Userdata(_) => 7,
        Item::Thread(_) => 8,
        Item::Main => 9,
        Item::Unknown => 0,
    }
}

// The index and the generation of an item, 0 and 0 where it has none.
fn handle_of(x: Item) -> (u32, u32)
    ensures { (result.0 ≡ index_of x) × (result.1 ≡ generation_of x) }
{
    match x {
        Item::Table(r) => (r.0, r.1),
        Item::Function(r) => (r.0, r.1),
        Item::Userdata(r) => (r.0, r.1),
        Item::Thread(r) => (r.0, r.1),
        Item::Main | Item::Unknown => (0, 0),
    }
}

pub fn index_of(x: Item) -> u32
    ensures { result ≡ index_of x }
{
    handle_of(x).0
}

pub fn generation_of(x: Item) -> u32
    ensures { result ≡ generation_of x }
{
    handle_of(x).1
}

// The item of three words. Any other kind is Unknown.
pub fn item_of(kind: u32, index: u32, generation: u32) -> Item
    ensures { result ≡ item_of kind index generation }
{
    match kind {
        5 => Item::Table(TableRef(index, generation)),
        6 => Item::Function(FuncRef(index, generation)),
        7 => Item::Userdata(UdRef(index, generation)),
        8 => Item::Thread(ThreadRef(index, generation)),
        9 => Item::Main,
        _ => Item::Unknown,
    }
}

fn read_item(w: &[u32], p: usize) -> Item
    requires { p + 2 < length w.now }
    ensures { result ≡ item_in w.now p }
{
    item_of(base::get(w, p), base::get(w, p + 1), base::get(w, p + 2))
}

fn write_item(w: &mut [u32], p: usize, x: Item)
    requires { p + 2 < length w.old }
    ensures { w.new ≡ put_item p x w.old }
{
    value::put3(w, p, kind_of(x), index_of(x), generation_of(x));
}

// How many items the list has: the stored count, read as at most the room.
pub fn length_of(w: &[u32], l: List) -> usize
    requires { RoomFor l w.now }
    ensures { (result ≡ length_of l w.now) × (result ≤ l.room) }
{
    base::wide(base::get(w, l.count)).min(l.room)
}

fn set_length(w: &mut [u32], l: List, n: usize)
    requires room_for { RoomFor l w.old }
    requires n_le_room { n ≤ l.room }
    ensures { w.new ≡ set_length l n w.old }
{
    let p = l.count;
    base::put(w, p, n as u32);
}

// The item at i, Unknown from the end on.
pub fn item_at(w: &[u32], l: List, i: usize) -> Item
    requires { RoomFor l w.now }
    ensures { result ≡ item_at l i w.now }
{
    if length_of(w, l) <= i {
        Item::Unknown
    } else {
        read_item(w, l.base + 3 * i)
    }
}

fn store(w: &mut [u32], l: List, n: usize, x: Item)
    requires room_for { RoomFor l w.old }
    requires n_lt_room { n < l.room }
    ensures { w.new ≡ stored l n x w.old }
{
    let p = l.base + 3 * n;
    write_item(w, p, x);
    set_length(w, l, n + 1);
}

// Item k is x.
pub fn set_item(w: &mut [u32], l: List, k: usize, x: Item)
    requires room_for { RoomFor l w.old }
    requires k_lt_room { k < l.room }
    ensures { w.new ≡ put_item (place l k) x w.old }
{
    let p = l.base + 3 * k;
    write_item(w, p, x);
}

// A push onto a full list is left out and sets the damage mark.
pub fn push(w: &mut [u32], l: List, x: Item)
    requires { RoomFor l w.old }
    ensures { w.new ≡ push l x w.old }
{
    let n = length_of(w, l);
    if n < l.room {
        store(w, l, n, x);
    } else {
        base::put(w, layout::DAMAGE, 1);
    }
}

// Item n is taken out, and the list ends there.
fn take_out(w: &mut [u32], l: List, n: usize)
    requires room_for { RoomFor l w.old }
    requires n_lt_room { n < l.room }
    ensures { w.new ≡ taken l n w.old }
{
    let p = l.base + 3 * n;
    value::put3(w, p, 0, 0, 0);
    set_length(w, l, n);
}

// The last item is taken out.
pub fn pop(w: &mut [u32], l: List) -> Option<Item>
    requires { RoomFor l w.old }
    ensures { (result, w.new) ≡ pop l w.old }
{
    let n = length_of(w, l);
    if n == 0 {
        return None;
    }
    let x = item_at(w, l, n - 1);
    take_out(w, l, n - 1);
    Some(x)
}

// The list is empty, and its words are 0.
pub fn clear_list(w: &mut [u32], l: List)
    requires { RoomFor l w.old }
    ensures { w.new ≡ cleared l w.old }
{
    let n = length_of(w, l);
    let p = l.base;
    base::clear_words(w, p, 3 * n);
    set_length(w, l, 0);
}
