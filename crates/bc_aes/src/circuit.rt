//! The S-box and its inverse on bit slices, by circuits of exclusive-ors and ands: no table, and so
//! no place in memory that a key or a text chooses.
//!
//! The first gates and those that both circuits share are those of J. Boyar and R. Peralta, "A
//! depth-16 circuit for the AES S-box" (2011), whose values wait for few others; the last gates are
//! of their smaller circuit. Gates stand in the order in which the compiler was found to spend the
//! least time on them: any order that computes each value before its use means the same.

ghost use Rattle.std.specs.Prelude.{◌≡◌};
ghost use Rattle.bc_aes.specs.Slices.{slices_of, EachSlicedBlock};
ghost use Rattle.bc_aes.specs.SlicedRounds.{bare_sub_bytes, bare_inv_sub_bytes};
ghost use Rattle.bc_aes.specs.Circuit.{slice_logic, results_of, sub_byte_circuit, inv_sub_byte_circuit};

use crate::slices::Slices;
use std::simd::prelude::*;

// The gates that both circuits share: the inverse of a byte, from the sums of its bits that the
// first gates make, to the products of which the last gates are sums.
macro_rules! products {
    ([
            $x:ident $y1:ident $y2:ident $y3:ident $y4:ident $y5:ident $y6:ident $y7:ident $y8:ident
            $y9:ident $y10:ident $y11:ident $y12:ident $y13:ident $y14:ident $y15:ident $y16:ident
            $y17:ident $y18:ident $y19:ident $y20:ident $y21:ident
    ] -> [
            $z0:ident $z1:ident $z2:ident $z3:ident $z4:ident $z5:ident $z6:ident $z7:ident
            $z8:ident $z9:ident $z10:ident $z11:ident $z12:ident $z13:ident $z14:ident $z15:ident
            $z16:ident $z17:ident
    ]) => {
        let t2 = $y3 & $y6;
        let t1 = $y12 & $y15;
        let t3 = $y20 ^ t1;
        let t4 = $y4 & $x;
        let t5 = t4 ^ t1;
        let t6 = $y13 & $y16;
        let t7 = $y5 & $y1;
        let t8 = $y21 ^ t6;
        let t9 = $y2 & $y7;
        let t17 = $y19 ^ t5;
        let t10 = t9 ^ t6;
        let t11 = $y9 & $y11;
        let t12 = $y14 & $y17;
        let t13 = t12 ^ t11;
        let t14 = $y8 & $y10;
        let t15 = t14 ^ t11;
        let t16 = t3 ^ t2;
        let t18 = t8 ^ t7;
        let t21 = t17 ^ t15;
        let t19 = t10 ^ t15;
        let t20 = t16 ^ t13;
        let t22 = t18 ^ t13;
        let t23 = t19 ^ $y18;
        let t24 = t22 ^ t23;
        let t25 = t22 & t20;
        let t26 = t21 ^ t25;
        let t31 = t23 & t20;
        let t27 = t20 ^ t21;
        let t28 = t23 ^ t25;
        let t29 = t28 & t27;
        let t30 = t26 & t24;
        let t32 = t27 & t31;
        let t33 = t27 ^ t25;
        let t34 = t21 & t22;
        let t35 = t24 & t34;
        let t36 = t24 ^ t25;
        let t37 = t21 ^ t29;
        let t38 = t32 ^ t33;
        let t39 = t23 ^ t30;
        let t40 = t35 ^ t36;
        let t41 = t38 ^ t40;
        let t42 = t37 ^ t39;
        let t43 = t37 ^ t38;
        let t44 = t39 ^ t40;
        let t45 = t42 ^ t41;
        let $z0 = t44 & $y15;
        let $z1 = t40 & $y6;
        let $z2 = t39 & $x;
        let $z3 = t43 & $y16;
        let $z15 = $y9 & t42;
        let $z4 = t38 & $y1;
        let $z5 = t37 & $y7;
        let $z6 = t42 & $y11;
        let $z7 = t45 & $y17;
        let $z8 = t41 & $y10;
        let $z9 = t44 & $y12;
        let $z10 = t40 & $y3;
        let $z11 = t39 & $y4;
        let $z12 = t43 & $y13;
        let $z13 = t38 & $y5;
        let $z14 = t37 & $y2;
        let $z16 = t45 & $y14;
        let $z17 = t41 & $y8;
    };
}

/// The gates of the S-box, in the order of the circuit.
#[inline(always)]
fn sub_byte_gates(q: Slices) -> Slices
    ensures computes { slices_of result ≡ results_of slice_logic sub_byte_circuit (slices_of q) }
{
    let Slices {
        s0: x0,
        s1: x1,
        s2: x2,
        s3: x3,
        s4: x4,
        s5: x5,
        s6: x6,
        s7: x7,
    } = q;
    let y9 = x7 ^ x4;
    let y8 = x7 ^ x2;
    let y13 = x7 ^ x1;
    let y14 = x4 ^ x2;
    let a1 = x3 ^ x1;
    let y15 = y9 ^ a1;
    let a2 = x6 ^ x5;
    let y6 = x0 ^ y15;
    let y1 = x0 ^ a2;
    let a3 = x6 ^ x2;
    let a4 = x4 ^ x0;
    let a5 = x5 ^ x2;
    let y12 = y13 ^ y14;
    let y16 = a5 ^ a1;
    let y11 = a1 ^ a3;
    let y10 = y15 ^ a2;
    let y7 = y1 ^ y16;
    let y4 = a2 ^ a4;
    let y2 = y9 ^ y4;
    let a6 = x1 ^ x0;
    let y5 = a2 ^ a6;
    let y3 = y8 ^ y5;
    let y19 = y8 ^ y10;
    let y18 = y2 ^ y7;
    let y21 = y13 ^ y16;
    let y20 = y15 ^ a3;
    let y17 = y9 ^ a5;
    products!([x0 y1 y2 y3 y4 y5 y6 y7 y8 y9 y10 y11 y12 y13 y14 y15 y16 y17 y18 y19 y20 y21] ->
        [z0 z1 z2 z3 z4 z5 z6 z7 z8 z9 z10 z11 z12 z13 z14 z15 z16 z17]);
    let t46 = z15 ^ z16;
    let t47 = z10 ^ z11;
    let t48 = z5 ^ z13;
    let t49 = z9 ^ z10;
    let t51 = z2 ^ z5;
    let t52 = z7 ^ z8;
    let t53 = z0 ^ z3;
    let t50 = z12 ^ z2;
    let t54 = z6 ^ z7;
    let t56 = z12 ^ t48;
    let t57 = t50 ^ t53;
    let t58 = z4 ^ t46;
    let t59 = z3 ^ t54;
    let t55 = z17 ^ z16;
    let t60 = t46 ^ t57;
    let t61 = z14 ^ t57;
    let t62 = t52 ^ t58;
    let t63 = t49 ^ t58;
    let t64 = z4 ^ t59;
    let t65 = t61 ^ t62;
    let t66 = z1 ^ t63;
    let r7 = t59 ^ t63;
    let r1 = t56 ^ t62;
    let r0 = t48 ^ t60;
    let t67 = t64 ^ t65;
    let r4 = t53 ^ t66;
    let r3 = t51 ^ t66;
    let r2 = t47 ^ t65;
    let r6 = t64 ^ r4;
    let r5 = t55 ^ t67;
    Slices {
        s0: r0,
        s1: r1,
        s2: r2,
        s3: r3,
        s4: r4,
        s5: r5,
        s6: r6,
        s7: r7,
    }
}

/// The gates of the inverse S-box, in the order of the circuit.
#[inline(always)]
fn inv_sub_byte_gates(q: Slices) -> Slices
    ensures computes { slices_of result ≡ results_of slice_logic inv_sub_byte_circuit (slices_of q) }
{
    let Slices {
        s0: x0,
        s1: x1,
        s2: x2,
        s3: x3,
        s4: x4,
        s5: x5,
        s6: x6,
        s7: x7,
    } = q;
    let y3 = x7 ^ x4;
    let y5 = x6 ^ x4;
    let y8 = x7 ^ x6;
    let y9 = x4 ^ x3;
    let y19 = x3 ^ x0;
    let a1 = x1 ^ x0;
    let y6 = x6 ^ y3;
    let y4 = y5 ^ a1;
    let y1 = x0 ^ y9;
    let y10 = y8 ^ y19;
    let y12 = y8 ^ a1;
    let y13 = y9 ^ a1;
    let y18 = x5 ^ y9;
    let a2 = x6 ^ x1;
    let y7 = x5 ^ y4;
    let y2 = y19 ^ a2;
    let y14 = x3 ^ y6;
    let a3 = x5 ^ x2;
    let a4 = x2 ^ x1;
    let a5 = x5 ^ x3;
    let w7 = x7 ^ a3;
    let y16 = a2 ^ a5;
    let y20 = y10 ^ a4;
    let y17 = y9 ^ a4;
    let y15 = y5 ^ a3;
    let y11 = y10 ^ y17;
    let y21 = y13 ^ y16;
    products!([w7 y1 y2 y3 y4 y5 y6 y7 y8 y9 y10 y11 y12 y13 y14 y15 y16 y17 y18 y19 y20 y21] ->
        [z0 z1 z2 z3 z4 z5 z6 z7 z8 z9 z10 z11 z12 z13 z14 z15 z16 z17]);
    let b18 = z12 ^ z13;
    let b19 = z6 ^ z15;
    let b20 = z16 ^ b18;
    let b21 = b19 ^ b20;
    let b22 = z0 ^ z2;
    let b23 = z8 ^ b21;
    let b24 = z11 ^ z17;
    let b25 = z5 ^ z10;
    let b26 = z9 ^ b24;
    let b27 = z4 ^ z7;
    let b28 = z5 ^ b23;
    let b29 = b22 ^ b25;
    let b30 = b19 ^ b29;
    let b31 = z3 ^ z14;
    let b32 = b24 ^ b30;
    let b33 = z1 ^ z4;
    let b34 = b22 ^ b23;
    let b35 = z11 ^ b29;
    let b36 = b18 ^ b27;
    let b37 = z0 ^ b33;
    let b38 = b32 ^ b36;
    let b39 = b20 ^ b26;
    let b40 = z3 ^ b28;
    let b41 = z3 ^ b21;
    let b42 = b28 ^ b37;
    let b43 = b31 ^ b35;
    let b44 = z13 ^ b43;
    let b45 = z15 ^ b26;
    let b46 = b27 ^ b41;
    let c2 = b44 ^ b42;
    let c1 = b39 ^ c2;
    Slices {
        s0: b45,
        s1: b46,
        s2: b42,
        s3: b38,
        s4: b34,
        s5: c2,
        s6: c1,
        s7: b40,
    }
}

/// SubBytes of eight blocks without its constant (FIPS 197, 5.1.1).
#[inline(always)]
pub(crate) fn sub_bytes(q: Slices) -> Slices
    ensures substitutes { EachSlicedBlock bare_sub_bytes (slices_of q) (slices_of result) }
{
    sub_byte_gates(q)
}

/// InvSubBytes of eight blocks that the constant was added to (FIPS 197, 5.3.2).
#[inline(always)]
pub(crate) fn inv_sub_bytes(q: Slices) -> Slices
    ensures substitutes { EachSlicedBlock bare_inv_sub_bytes (slices_of q) (slices_of result) }
{
    inv_sub_byte_gates(q)
}
