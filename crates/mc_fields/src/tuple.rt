//! Fields in a tuple, one after another.
#![tactic(auto, using(mc_bytes::proofs::Kept::kept_whole, mc_bytes::proofs::Kept::kept_same, mc_bytes::proofs::Kept::kept_by, mc_bytes::proofs::Kept::kept_past))]

ghost use Rattle.std.specs.Prelude.{◌≡◌, length, take, OnOk};
ghost use Rattle.mc_fields.specs.Flat.{tuple2, tuple3, tuple4, tuple5, tuple6, tuple7};

use crate::Field;
use mc_bytes::{Cursor, NoMemory, ReadError};
use std::alloc::Global;

impl<A: Field, B: Field> Field for (A, B) {
    ghost format = { tuple2 A.format B.format };

    #[tactic(auto)]
    fn get(alloc: Global, cursor: &mut Cursor<'_>) -> Result<(A, B), ReadError> {
        let a = A::get(alloc, cursor)?;
        let b = B::get(alloc, cursor)?;
        Ok((a, b))
    }

    fn put(&self, out: &mut Vec<u8>) -> Result<(), NoMemory> {
        put2(&self.0, &self.1, out)
    }
}

impl<A: Field, B: Field, C: Field> Field for (A, B, C) {
    ghost format = { tuple3 A.format B.format C.format };

    #[tactic(auto)]
    fn get(alloc: Global, cursor: &mut Cursor<'_>) -> Result<(A, B, C), ReadError> {
        let a = A::get(alloc, cursor)?;
        let b = B::get(alloc, cursor)?;
        let c = C::get(alloc, cursor)?;
        Ok((a, b, c))
    }

    fn put(&self, out: &mut Vec<u8>) -> Result<(), NoMemory> {
        put3(&self.0, &self.1, &self.2, out)
    }
}

impl<A: Field, B: Field, C: Field, D: Field> Field for (A, B, C, D) {
    ghost format = { tuple4 A.format B.format C.format D.format };

    #[tactic(auto)]
    fn get(alloc: Global, cursor: &mut Cursor<'_>) -> Result<(A, B, C, D), ReadError> {
        let (a, b): (A, B) = Field::get(alloc, cursor)?;
        let (c, d): (C, D) = Field::get(alloc, cursor)?;
        Ok((a, b, c, d))
    }

    fn put(&self, out: &mut Vec<u8>) -> Result<(), NoMemory> {
        put4(&self.0, &self.1, &self.2, &self.3, out)
    }
}

impl<A: Field, B: Field, C: Field, D: Field, E: Field> Field for (A, B, C, D, E) {
    ghost format = { tuple5 A.format B.format C.format D.format E.format };

    #[tactic(auto)]
    fn get(alloc: Global, cursor: &mut Cursor<'_>) -> Result<(A, B, C, D, E), ReadError> {
        let (a, b, c): (A, B, C) = Field::get(alloc, cursor)?;
        let (d, e): (D, E) = Field::get(alloc, cursor)?;
        Ok((a, b, c, d, e))
    }

    fn put(&self, out: &mut Vec<u8>) -> Result<(), NoMemory> {
        put5(&self.0, &self.1, &self.2, &self.3, &self.4, out)
    }
}

impl<A: Field, B: Field, C: Field, D: Field, E: Field, F: Field> Field for (A, B, C, D, E, F) {
    ghost format = { tuple6 A.format B.format C.format D.format E.format F.format };

    #[tactic(auto)]
    fn get(alloc: Global, cursor: &mut Cursor<'_>) -> Result<(A, B, C, D, E, F), ReadError> {
        let (a, b, c): (A, B, C) = Field::get(alloc, cursor)?;
        let (d, e, f): (D, E, F) = Field::get(alloc, cursor)?;
        Ok((a, b, c, d, e, f))
    }

    fn put(&self, out: &mut Vec<u8>) -> Result<(), NoMemory> {
        put6(&self.0, &self.1, &self.2, &self.3, &self.4, &self.5, out)
    }
}

impl<A: Field, B: Field, C: Field, D: Field, E: Field, F: Field, G: Field> Field
    for (A, B, C, D, E, F, G) {
    ghost format = { tuple7 A.format B.format C.format D.format E.format F.format G.format };

    #[tactic(auto)]
    fn get(alloc: Global, cursor: &mut Cursor<'_>) -> Result<(A, B, C, D, E, F, G), ReadError> {
        let (a, b, c, d): (A, B, C, D) = Field::get(alloc, cursor)?;
        let (e, f, g): (E, F, G) = Field::get(alloc, cursor)?;
        Ok((a, b, c, d, e, f, g))
    }

    fn put(&self, out: &mut Vec<u8>) -> Result<(), NoMemory> {
        put7(
            &self.0, &self.1, &self.2, &self.3, &self.4, &self.5, &self.6, out,
        )
    }
}

/// Appends two fields. Without memory some first part of them may be there.
pub fn put2<A: Field, B: Field>(a: &A, b: &B, out: &mut Vec<u8>) -> Result<(), NoMemory>
    requires a { A.format.fits a.now }
    requires b { B.format.fits b.now }
    ensures ok { OnOk result (out.new.items ≡
        (tuple2 A.format B.format).append
        (a.now, b.now) out.old.items) }
    ensures kept { take (length out.old.items) out.new.items ≡ out.old.items }
{
    a.put(out)?;
    b.put(out)
}

/// Appends three fields. Without memory some first part of them may be there.
pub fn put3<A: Field, B: Field, C: Field>(
    a: &A,
    b: &B,
    c: &C,
    out: &mut Vec<u8>,
) -> Result<(), NoMemory>
    requires a { A.format.fits a.now }
    requires b { B.format.fits b.now }
    requires c { C.format.fits c.now }
    ensures ok { OnOk result (out.new.items ≡
        (tuple3 A.format B.format C.format).append
        (a.now, b.now, c.now) out.old.items) }
    ensures kept { take (length out.old.items) out.new.items ≡ out.old.items }
{
    put2(a, b, out)?;
    c.put(out)
}

/// Appends four fields. Without memory some first part of them may be there.
pub fn put4<A: Field, B: Field, C: Field, D: Field>(
    a: &A,
    b: &B,
    c: &C,
    d: &D,
    out: &mut Vec<u8>,
) -> Result<(), NoMemory>
    requires a { A.format.fits a.now }
    requires b { B.format.fits b.now }
    requires c { C.format.fits c.now }
    requires d { D.format.fits d.now }
    ensures ok { OnOk result (out.new.items ≡
        (tuple4 A.format B.format C.format D.format).append
        (a.now, b.now, c.now, d.now) out.old.items) }
    ensures kept { take (length out.old.items) out.new.items ≡ out.old.items }
{
    put2(a, b, out)?;
    put2(c, d, out)
}

/// Appends five fields. Without memory some first part of them may be there.
pub fn put5<A: Field, B: Field, C: Field, D: Field, E: Field>(
    a: &A,
    b: &B,
    c: &C,
    d: &D,
    e: &E,
    out: &mut Vec<u8>,
) -> Result<(), NoMemory>
    requires a { A.format.fits a.now }
    requires b { B.format.fits b.now }
    requires c { C.format.fits c.now }
    requires d { D.format.fits d.now }
    requires e { E.format.fits e.now }
    ensures ok { OnOk result (out.new.items ≡
        (tuple5 A.format B.format C.format D.format E.format).append
        (a.now, b.now, c.now, d.now, e.now) out.old.items) }
    ensures kept { take (length out.old.items) out.new.items ≡ out.old.items }
{
    put3(a, b, c, out)?;
    put2(d, e, out)
}

/// Appends six fields. Without memory some first part of them may be there.
pub fn put6<A: Field, B: Field, C: Field, D: Field, E: Field, F: Field>(
    a: &A,
    b: &B,
    c: &C,
    d: &D,
    e: &E,
    f: &F,
    out: &mut Vec<u8>,
) -> Result<(), NoMemory>
    requires a { A.format.fits a.now }
    requires b { B.format.fits b.now }
    requires c { C.format.fits c.now }
    requires d { D.format.fits d.now }
    requires e { E.format.fits e.now }
    requires f { F.format.fits f.now }
    ensures ok { OnOk result (out.new.items ≡
        (tuple6 A.format B.format C.format D.format E.format F.format).append
        (a.now, b.now, c.now, d.now, e.now, f.now) out.old.items) }
    ensures kept { take (length out.old.items) out.new.items ≡ out.old.items }
{
    put3(a, b, c, out)?;
    put3(d, e, f, out)
}

/// Appends seven fields. Without memory some first part of them may be there.
pub fn put7<A: Field, B: Field, C: Field, D: Field, E: Field, F: Field, G: Field>(
    a: &A,
    b: &B,
    c: &C,
    d: &D,
    e: &E,
    f: &F,
    g: &G,
    out: &mut Vec<u8>,
) -> Result<(), NoMemory>
    requires a { A.format.fits a.now }
    requires b { B.format.fits b.now }
    requires c { C.format.fits c.now }
    requires d { D.format.fits d.now }
    requires e { E.format.fits e.now }
    requires f { F.format.fits f.now }
    requires g { G.format.fits g.now }
    ensures ok { OnOk result (out.new.items ≡
        (tuple7 A.format B.format C.format D.format E.format F.format G.format).append
        (a.now, b.now, c.now, d.now, e.now, f.now, g.now) out.old.items) }
    ensures kept { take (length out.old.items) out.new.items ≡ out.old.items }
{
    put4(a, b, c, d, out)?;
    put3(e, f, g, out)
}
