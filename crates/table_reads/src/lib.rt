// Public reads of strings, tables and userdata by handle. Each gives 1 and 8 first, then 2 for a handle that names no occupied
// slot, then 4 for an index outside its range, and changes nothing.
#![tactic(auto)]

ghost use Rattle.std.specs.Prelude.{◌≡◌, ◌+◌, ◌*◌, ◌≤◌, ◌<◌, length};
ghost use Rattle.base.specs.Heap.{heap};
ghost use Rattle.base.specs.Words.{at};
ghost use Rattle.table_reads.specs.TableReads.{string_in, read_string, table_in, read_table, userdata_in, read_userdata};

use base::Refusal;
use reads::{Kind, Read};
use value::{StrRef, TableRef, UdRef};

// A field of a string. The bytes end at the length.
#[derive(Clone, Copy)]
pub enum StringField {
    Length,
    Byte(u32),
}

fn byte_at(b: &[u8], p: usize) -> u64
    requires { p < length b.now }
    ensures { result ≡ at b.now p }
{
    u64::from(b[p])
}

// The bytes of slot n stand from 64 * n on.
fn string_in(w: &[u32], b: &[u8], p: usize, n: usize, q: StringField) -> Result<Read, Refusal>
    requires p_in_bounds { p + 1 ≤ length w.now }
    requires n_in_bounds { 64 * n + 64 ≤ length b.now }
    ensures { result ≡ string_in p n q w.now b.now }
{
    match q {
        StringField::Length => Ok(Read::Number(record::strings::string_length(w, p) as u64)),
        StringField::Byte(i) => {
            let k = base::wide(i);
            if record::strings::string_length(w, p) <= k {
                return Err(Refusal::OutOfRange);
            }
            Ok(Read::Number(byte_at(b, 64 * n + k)))
        }
    }
}

// A field of a string.
pub fn read_string(w: &[u32], b: &[u8], s: StrRef, q: StringField) -> Result<Read, Refusal>
    ensures { result ≡ read_string s q (heap w.now b.now) }
{
    let (i, p) = reads::find(w, b, Kind::Strings, s.0, s.1)?;
    string_in(w, b, p, i, q)
}

// A field of a table. The array and the nodes end at their sizes.
#[derive(Clone, Copy)]
pub enum TableField {
    Meta,
    Array,
    Nodes,
    At(u32),
    Key(u32),
    Val(u32),
}

fn table_in(w: &[u32], p: usize, q: TableField) -> Result<Read, Refusal>
    requires { p + 580 ≤ length w.now }
    ensures { result ≡ table_in p q w.now }
{
    match q {
        TableField::Meta => Ok(Read::Table(record::tables::table_meta(w, p))),
        TableField::Array => Ok(Read::Number(record::tables::array_size(w, p) as u64)),
        TableField::Nodes => Ok(Read::Number(record::tables::node_count(w, p) as u64)),
        TableField::At(i) => {
            let k = base::wide(i);
            if record::tables::array_size(w, p) <= k {
                return Err(Refusal::OutOfRange);
            }
            Ok(Read::Value(record::tables::array_value(w, p, k)))
        }
        TableField::Key(i) => {
            let k = base::wide(i);
            if record::tables::node_count(w, p) <= k {
                return Err(Refusal::OutOfRange);
            }
            Ok(Read::Value(record::tables::node_key(w, p, k)))
        }
        TableField::Val(i) => {
            let k = base::wide(i);
            if record::tables::node_count(w, p) <= k {
                return Err(Refusal::OutOfRange);
            }
            Ok(Read::Value(record::tables::node_value(w, p, k)))
        }
    }
}

// A field of a table.
pub fn read_table(w: &[u32], b: &[u8], t: TableRef, q: TableField) -> Result<Read, Refusal>
    ensures { result ≡ read_table t q (heap w.now b.now) }
{
    let (_, p) = reads::find(w, b, Kind::Tables, t.0, t.1)?;
    table_in(w, p, q)
}

// A field of a userdata. `Finalized` is 1 or 0.
#[derive(Clone, Copy)]
pub enum UserdataField {
    Meta,
    Env,
    Creation,
    Finalized,
}

fn userdata_in(w: &[u32], p: usize, q: UserdataField) -> Result<Read, Refusal>
    requires { p + 7 ≤ length w.now }
    ensures { result ≡ userdata_in p q w.now }
{
    match q {
        UserdataField::Meta => Ok(Read::Table(record::userdata::ud_meta(w, p))),
        UserdataField::Env => Ok(Read::Table(record::userdata::ud_env(w, p))),
        UserdataField::Creation => Ok(Read::Number(record::userdata::ud_creation(w, p))),
        UserdataField::Finalized => reads::flag_read(record::userdata::ud_finalized(w, p)),
    }
}

// A field of a userdata.
pub fn read_userdata(w: &[u32], b: &[u8], d: UdRef, q: UserdataField) -> Result<Read, Refusal>
    ensures { result ≡ read_userdata d q (heap w.now b.now) }
{
    let (_, p) = reads::find(w, b, Kind::Userdata, d.0, d.1)?;
    userdata_in(w, p, q)
}
