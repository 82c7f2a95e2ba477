//! The steps of a round on sixteen states at a time, by planes of bits: plane b has bit b of each octet. Octet p of a
//! plane has the bits of octet p % 16 of eight states, of which state 8 * (p / 16) + j has bit j.

ghost use Rattle.std.specs.Prelude.{◌≡◌, ℕ, List, ◌<◌, bit_and, bit_xor, slice_index};
ghost use Rattle.std.specs.Simd.Lanes.{zip2};
ghost use Rattle.sg_aes.specs.Field.{times_x};
ghost use Rattle.sg_aes.specs.Lanes.{IsState};
ghost use Rattle.sg_aes.specs.Planes.{
  HasPlanes,
  IsBit,
  half_turned,
  key_at,
  next_rows,
  octet_at,
  rows,
  without_constant,
};
ghost use Rattle.sg_aes.specs.State.{last_round, round};

use std::simd::prelude::*;

/// The eight planes of 256 octets, from the lowest bit on.
#[derive(Clone, Copy)]
pub(crate) struct Planes {
    pub(crate) p0: u8x32,
    pub(crate) p1: u8x32,
    pub(crate) p2: u8x32,
    pub(crate) p3: u8x32,
    pub(crate) p4: u8x32,
    pub(crate) p5: u8x32,
    pub(crate) p6: u8x32,
    pub(crate) p7: u8x32,
}

// Bits added.
#[inline(always)]
fn sum(a: u8x32, b: u8x32) -> u8x32
    ensures { result ≡ zip2 bit_xor a b }
{
    a ^ b
}

// Bits multiplied.
#[inline(always)]
fn meet(a: u8x32, b: u8x32) -> u8x32
    ensures { result ≡ zip2 bit_and a b }
{
    a & b
}

// Each octet substituted, but for the constant that the affine map adds (FIPS 197, 5.1.1). The circuit and its names
// are those of J. Boyar and R. Peralta, "A new combinational logic minimization technique with applications to
// cryptology" (2010), where x0 is the highest bit; its four negations are that constant.
#[inline(always)]
fn boxed(x: Planes) -> Planes
    ensures { (v : ℕ → ℕ → ℕ) → ((p j : ℕ) → v p j < 256)
        → HasPlanes v x
        → HasPlanes (λ p j. without_constant (v p j)) result }
{
    let Planes {
        p0: x7,
        p1: x6,
        p2: x5,
        p3: x4,
        p4: x3,
        p5: x2,
        p6: x1,
        p7: x0,
    } = x;
    // the sums before the inverse
    let y14 = sum(x3, x5);
    let y13 = sum(x0, x6);
    let y9 = sum(x0, x3);
    let y8 = sum(x0, x5);
    let t0 = sum(x1, x2);
    let y1 = sum(t0, x7);
    let y4 = sum(y1, x3);
    let y12 = sum(y13, y14);
    let y2 = sum(y1, x0);
    let y5 = sum(y1, x6);
    let y3 = sum(y5, y8);
    let t1 = sum(x4, y12);
    let y15 = sum(t1, x5);
    let y20 = sum(t1, x1);
    let y6 = sum(y15, x7);
    let y10 = sum(y15, t0);
    let y11 = sum(y20, y9);
    let y7 = sum(x7, y11);
    let y17 = sum(y10, y11);
    let y19 = sum(y10, y8);
    let y16 = sum(t0, y11);
    let y21 = sum(y13, y16);
    let y18 = sum(x0, y16);
    // the inverse
    let t2 = meet(y12, y15);
    let t3 = meet(y3, y6);
    let t4 = sum(t3, t2);
    let t5 = meet(y4, x7);
    let t6 = sum(t5, t2);
    let t7 = meet(y13, y16);
    let t8 = meet(y5, y1);
    let t9 = sum(t8, t7);
    let t10 = meet(y2, y7);
    let t11 = sum(t10, t7);
    let t12 = meet(y9, y11);
    let t13 = meet(y14, y17);
    let t14 = sum(t13, t12);
    let t15 = meet(y8, y10);
    let t16 = sum(t15, t12);
    let t17 = sum(t4, t14);
    let t18 = sum(t6, t16);
    let t19 = sum(t9, t14);
    let t20 = sum(t11, t16);
    let t21 = sum(t17, y20);
    let t22 = sum(t18, y19);
    let t23 = sum(t19, y21);
    let t24 = sum(t20, y18);
    let t25 = sum(t21, t22);
    let t26 = meet(t21, t23);
    let t27 = sum(t24, t26);
    let t28 = meet(t25, t27);
    let t29 = sum(t28, t22);
    let t30 = sum(t23, t24);
    let t31 = sum(t22, t26);
    let t32 = meet(t31, t30);
    let t33 = sum(t32, t24);
    let t34 = sum(t23, t33);
    let t35 = sum(t27, t33);
    let t36 = meet(t24, t35);
    let t37 = sum(t36, t34);
    let t38 = sum(t27, t36);
    let t39 = meet(t29, t38);
    let t40 = sum(t25, t39);
    let t41 = sum(t40, t37);
    let t42 = sum(t29, t33);
    let t43 = sum(t29, t40);
    let t44 = sum(t33, t37);
    let t45 = sum(t42, t41);
    let z0 = meet(t44, y15);
    let z1 = meet(t37, y6);
    let z2 = meet(t33, x7);
    let z3 = meet(t43, y16);
    let z4 = meet(t40, y1);
    let z5 = meet(t29, y7);
    let z6 = meet(t42, y11);
    let z7 = meet(t45, y17);
    let z8 = meet(t41, y10);
    let z9 = meet(t44, y12);
    let z10 = meet(t37, y3);
    let z11 = meet(t33, y4);
    let z12 = meet(t43, y13);
    let z13 = meet(t40, y5);
    let z14 = meet(t29, y2);
    let z15 = meet(t42, y9);
    let z16 = meet(t45, y14);
    let z17 = meet(t41, y8);
    // the sums behind it
    let t46 = sum(z15, z16);
    let t47 = sum(z10, z11);
    let t48 = sum(z5, z13);
    let t49 = sum(z9, z10);
    let t50 = sum(z2, z12);
    let t51 = sum(z2, z5);
    let t52 = sum(z7, z8);
    let t53 = sum(z0, z3);
    let t54 = sum(z6, z7);
    let t55 = sum(z16, z17);
    let t56 = sum(z12, t48);
    let t57 = sum(t50, t53);
    let t58 = sum(z4, t46);
    let t59 = sum(z3, t54);
    let t60 = sum(t46, t57);
    let t61 = sum(z14, t57);
    let t62 = sum(t52, t58);
    let t63 = sum(t49, t58);
    let t64 = sum(z4, t59);
    let t65 = sum(t61, t62);
    let t66 = sum(z1, t63);
    let s0 = sum(t59, t63);
    let s6 = sum(t56, t62);
    let s7 = sum(t48, t60);
    let t67 = sum(t64, t65);
    let s3 = sum(t53, t66);
    let s4 = sum(t51, t66);
    let s5 = sum(t47, t65);
    let s1 = sum(t64, s3);
    let s2 = sum(t55, t67);
    Planes {
        p0: s7,
        p1: s6,
        p2: s5,
        p3: s4,
        p4: s3,
        p5: s2,
        p6: s1,
        p7: s0,
    }
}

// Each row turned left by its number (FIPS 197, 5.1.2), in a plane.
#[inline(always)]
fn shifted_plane(x: u8x32) -> u8x32
    ensures { (v : ℕ → ℕ → ℕ) (b : ℕ) → IsBit v x b
        → IsBit (λ p j. v (slice_index rows p) j) result b }
{
    x.swizzle([
        0, 5, 10, 15, 4, 9, 14, 3, 8, 13, 2, 7, 12, 1, 6, 11, 16, 21, 26, 31, 20, 25, 30, 19, 24,
        29, 18, 23, 28, 17, 22, 27,
    ])
}

// Each row turned left by its number.
#[inline(always)]
fn shifted(x: Planes) -> Planes
    ensures { (v : ℕ → ℕ → ℕ) → HasPlanes v x
        → HasPlanes (λ p j. v (slice_index rows p) j) result }
{
    Planes {
        p0: shifted_plane(x.p0),
        p1: shifted_plane(x.p1),
        p2: shifted_plane(x.p2),
        p3: shifted_plane(x.p3),
        p4: shifted_plane(x.p4),
        p5: shifted_plane(x.p5),
        p6: shifted_plane(x.p6),
        p7: shifted_plane(x.p7),
    }
}

// The same, with the octet that comes next in its column at each place, in a plane.
#[inline(always)]
fn shifted_next_plane(x: u8x32) -> u8x32
    ensures { (v : ℕ → ℕ → ℕ) (b : ℕ) → IsBit v x b
        → IsBit (λ p j. v (slice_index next_rows p) j) result b }
{
    x.swizzle([
        5, 10, 15, 0, 9, 14, 3, 4, 13, 2, 7, 8, 1, 6, 11, 12, 21, 26, 31, 16, 25, 30, 19, 20, 29,
        18, 23, 24, 17, 22, 27, 28,
    ])
}

// The same, with the octet that comes next in its column at each place.
#[inline(always)]
fn shifted_next(x: Planes) -> Planes
    ensures { (v : ℕ → ℕ → ℕ) → HasPlanes v x
        → HasPlanes (λ p j. v (slice_index next_rows p) j) result }
{
    Planes {
        p0: shifted_next_plane(x.p0),
        p1: shifted_next_plane(x.p1),
        p2: shifted_next_plane(x.p2),
        p3: shifted_next_plane(x.p3),
        p4: shifted_next_plane(x.p4),
        p5: shifted_next_plane(x.p5),
        p6: shifted_next_plane(x.p6),
        p7: shifted_next_plane(x.p7),
    }
}

// The octet two places further in its column at each place, in a plane.
#[inline(always)]
fn turned_plane(x: u8x32) -> u8x32
    ensures { (v : ℕ → ℕ → ℕ) (b : ℕ) → IsBit v x b
        → IsBit (λ p j. v (slice_index half_turned p) j) result b }
{
    x.swizzle([
        2, 3, 0, 1, 6, 7, 4, 5, 10, 11, 8, 9, 14, 15, 12, 13, 18, 19, 16, 17, 22, 23, 20, 21, 26,
        27, 24, 25, 30, 31, 28, 29,
    ])
}

// The octet two places further in its column at each place.
#[inline(always)]
fn turned(x: Planes) -> Planes
    ensures { (v : ℕ → ℕ → ℕ) → HasPlanes v x
        → HasPlanes (λ p j. v (slice_index half_turned p) j) result }
{
    Planes {
        p0: turned_plane(x.p0),
        p1: turned_plane(x.p1),
        p2: turned_plane(x.p2),
        p3: turned_plane(x.p3),
        p4: turned_plane(x.p4),
        p5: turned_plane(x.p5),
        p6: turned_plane(x.p6),
        p7: turned_plane(x.p7),
    }
}

/// The sum of octets at each place.
#[inline(always)]
pub(crate) fn added(x: Planes, y: Planes) -> Planes
    ensures { (v w : ℕ → ℕ → ℕ) → HasPlanes v x → HasPlanes w y
        → HasPlanes (λ p j. bit_xor (v p j) (w p j)) result }
{
    Planes {
        p0: sum(x.p0, y.p0),
        p1: sum(x.p1, y.p1),
        p2: sum(x.p2, y.p2),
        p3: sum(x.p3, y.p3),
        p4: sum(x.p4, y.p4),
        p5: sum(x.p5, y.p5),
        p6: sum(x.p6, y.p6),
        p7: sum(x.p7, y.p7),
    }
}

// Each octet times x (FIPS 197, 4.2.1).
#[inline(always)]
fn doubled(x: Planes) -> Planes
    ensures { (v : ℕ → ℕ → ℕ) → ((p j : ℕ) → v p j < 256)
        → HasPlanes v x
        → HasPlanes (λ p j. times_x (v p j)) result }
{
    Planes {
        p0: x.p7,
        p1: sum(x.p0, x.p7),
        p2: x.p1,
        p3: sum(x.p2, x.p7),
        p4: sum(x.p3, x.p7),
        p5: x.p4,
        p6: x.p5,
        p7: x.p6,
    }
}

/// One round on sixteen states: in a column a, b, c, d each new octet is 2 (a + b) + b + c + d. The round key has the
/// constant that `boxed` leaves out.
#[inline(always)]
pub(crate) fn round(x: Planes, key: Planes) -> Planes
    ensures { (s : ℕ → List ℕ) (k : List ℕ) → ((n : ℕ) → IsState (s n))
        → IsState k → HasPlanes (octet_at s) x → HasPlanes (key_at k) key
        → HasPlanes (octet_at (λ n. round (s n) k)) result }
{
    let s = boxed(x);
    let b = shifted_next(s);
    let t = added(shifted(s), b);
    added(added(added(turned(t), b), doubled(t)), key)
}

/// The last round on sixteen states.
#[inline(always)]
pub(crate) fn last_round(x: Planes, key: Planes) -> Planes
    ensures { (s : ℕ → List ℕ) (k : List ℕ) → ((n : ℕ) → IsState (s n))
        → IsState k → HasPlanes (octet_at s) x → HasPlanes (key_at k) key
        → HasPlanes (octet_at (λ n. last_round (s n) k)) result }
{
    added(shifted(boxed(x)), key)
}
