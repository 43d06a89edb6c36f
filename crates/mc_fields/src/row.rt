//! The id of a packet and its fields, written. Without memory some first part of them may be there.
#![tactic(auto, using(mc_bytes::proofs::Kept::kept_whole, mc_bytes::proofs::Kept::kept_same, mc_bytes::proofs::Kept::kept_by, mc_bytes::proofs::Kept::kept_past, crate::proofs::Ids::id_fits))]

ghost use Rattle.std.specs.Prelude.{◌≡◌, ◌++◌, length, take, OnOk};
ghost use Rattle.mc_fields.specs.Flat.{tuple2, tuple3, tuple4, tuple5, tuple6, tuple7};
ghost use Rattle.mc_fields.specs.Varint.{varint_spelling};

use crate::{Field, VarInt, put2, put3, put4, put5, put6, put7};
use mc_bytes::NoMemory;

/// Appends a packet of one field.
pub fn put_row<F: Field>(id: i32, fields: &F, out: &mut Vec<u8>) -> Result<(), NoMemory>
    requires { F.format.fits fields.now }
    ensures ok { OnOk result (out.new.items ≡
        F.format.append fields.now (out.old.items ++ varint_spelling id)) }
    ensures kept { take (length out.old.items) out.new.items ≡ out.old.items }
{
    put2(&VarInt(id), fields, out)
}

/// Appends a packet of two fields.
pub fn put_row2<A: Field, B: Field>(
    id: i32,
    a: &A,
    b: &B,
    out: &mut Vec<u8>,
) -> Result<(), NoMemory>
    requires a { A.format.fits a.now }
    requires b { B.format.fits b.now }
    ensures ok { OnOk result (out.new.items ≡
        (tuple2 A.format B.format).append
        (a.now, b.now) (out.old.items ++ varint_spelling id)) }
    ensures kept { take (length out.old.items) out.new.items ≡ out.old.items }
{
    put3(&VarInt(id), a, b, out)
}

/// Appends a packet of three fields.
pub fn put_row3<A: Field, B: Field, C: Field>(
    id: i32,
    a: &A,
    b: &B,
    c: &C,
    out: &mut Vec<u8>,
) -> Result<(), NoMemory>
    requires a { A.format.fits a.now }
    requires b { B.format.fits b.now }
    requires c { C.format.fits c.now }
    ensures ok { OnOk result (out.new.items ≡
        (tuple3 A.format B.format C.format).append
        (a.now, b.now, c.now) (out.old.items ++ varint_spelling id)) }
    ensures kept { take (length out.old.items) out.new.items ≡ out.old.items }
{
    put4(&VarInt(id), a, b, c, out)
}

/// Appends a packet of four fields.
pub fn put_row4<A: Field, B: Field, C: Field, D: Field>(
    id: i32,
    a: &A,
    b: &B,
    c: &C,
    d: &D,
    out: &mut Vec<u8>,
) -> Result<(), NoMemory>
    requires a { A.format.fits a.now }
    requires b { B.format.fits b.now }
    requires c { C.format.fits c.now }
    requires d { D.format.fits d.now }
    ensures ok { OnOk result (out.new.items ≡
        (tuple4 A.format B.format C.format D.format).append
        (a.now, b.now, c.now, d.now) (out.old.items ++ varint_spelling id)) }
    ensures kept { take (length out.old.items) out.new.items ≡ out.old.items }
{
    put5(&VarInt(id), a, b, c, d, out)
}

/// Appends a packet of five fields.
pub fn put_row5<A: Field, B: Field, C: Field, D: Field, E: Field>(
    id: i32,
    a: &A,
    b: &B,
    c: &C,
    d: &D,
    e: &E,
    out: &mut Vec<u8>,
) -> Result<(), NoMemory>
    requires a { A.format.fits a.now }
    requires b { B.format.fits b.now }
    requires c { C.format.fits c.now }
    requires d { D.format.fits d.now }
    requires e { E.format.fits e.now }
    ensures ok { OnOk result (out.new.items ≡
        (tuple5 A.format B.format C.format D.format E.format).append
        (a.now, b.now, c.now, d.now, e.now) (out.old.items ++ varint_spelling id)) }
    ensures kept { take (length out.old.items) out.new.items ≡ out.old.items }
{
    put6(&VarInt(id), a, b, c, d, e, out)
}

/// Appends a packet of six fields.
pub fn put_row6<A: Field, B: Field, C: Field, D: Field, E: Field, F: Field>(
    id: i32,
    a: &A,
    b: &B,
    c: &C,
    d: &D,
    e: &E,
    f: &F,
    out: &mut Vec<u8>,
) -> Result<(), NoMemory>
    requires a { A.format.fits a.now }
    requires b { B.format.fits b.now }
    requires c { C.format.fits c.now }
    requires d { D.format.fits d.now }
    requires e { E.format.fits e.now }
    requires f { F.format.fits f.now }
    ensures ok { OnOk result (out.new.items ≡
        (tuple6 A.format B.format C.format D.format E.format F.format).append
        (a.now, b.now, c.now, d.now, e.now, f.now) (out.old.items ++ varint_spelling id)) }
    ensures kept { take (length out.old.items) out.new.items ≡ out.old.items }
{
    put7(&VarInt(id), a, b, c, d, e, f, out)
}

/// Appends a packet of seven fields.
pub fn put_row7<A: Field, B: Field, C: Field, D: Field, E: Field, F: Field, G: Field>(
    id: i32,
    a: &A,
    b: &B,
    c: &C,
    d: &D,
    e: &E,
    f: &F,
    g: &G,
    out: &mut Vec<u8>,
) -> Result<(), NoMemory>
    requires a { A.format.fits a.now }
    requires b { B.format.fits b.now }
    requires c { C.format.fits c.now }
    requires d { D.format.fits d.now }
    requires e { E.format.fits e.now }
    requires f { F.format.fits f.now }
    requires g { G.format.fits g.now }
    ensures ok { OnOk result (out.new.items ≡
        (tuple7 A.format B.format C.format D.format E.format F.format G.format).append
        (a.now, b.now, c.now, d.now, e.now, f.now, g.now) (out.old.items ++ varint_spelling id)) }
    ensures kept { take (length out.old.items) out.new.items ≡ out.old.items }
{
    put_row4(id, a, b, c, d, out)?;
    put3(e, f, g, out)
}
