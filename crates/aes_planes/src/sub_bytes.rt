// InvSubBytes (FIPS 197, 5.3.2) as a circuit of 124 gates, for all octets of eight blocks at once.
// The middle, from t2 to z17, is that of Boyar and Peralta's circuit of the S-box (2012); what stands before and after it is linear.
ghost use Rattle.std.specs.Prelude.{◌≡◌, ℕ, ◌<◌};
ghost use Rattle.cipher_model.specs.Field.{inv_sub_byte};
ghost use Rattle.aes_planes.specs.Planes.{byte_in};

use crate::planes::{Planes, and, not, xor};

// InvSubBytes on each byte, a gate at a time.
#[inline(always)]
pub fn inv_sub_bits(q: Planes) -> Planes
    ensures { (i m : ℕ) → i < 16 → m < 8 → byte_in result i m ≡ inv_sub_byte (byte_in q i m) }
{
    let Planes {
        p0: q0,
        p1: q1,
        p2: q2,
        p3: q3,
        p4: q4,
        p5: q5,
        p6: q6,
        p7: q7,
    } = q;
    let q0n = not(q0);
    let q1n = not(q1);
    let q5n = not(q5);
    let q6n = not(q6);
    let u0 = xor(q4, q3);
    let u1 = xor(q7, q4);
    let u2 = xor(q3, q0n);
    let u3 = xor(q6n, q4);
    let u4 = xor(u2, q4);
    let u5 = xor(u3, q7);
    let u6 = xor(u5, u4);
    let u7 = xor(u5, q3);
    let u8 = xor(u7, u0);
    let u9 = xor(u0, q5n);
    let u10 = xor(u4, q1n);
    let u11 = xor(u10, u3);
    let u12 = xor(u11, u9);
    let u13 = xor(u12, q5n);
    let u14 = xor(u12, q1n);
    let u15 = xor(u13, u1);
    let u16 = xor(u14, u10);
    let u17 = xor(q7, q2);
    let u18 = xor(u17, u13);
    let u19 = xor(u18, u12);
    let u20 = xor(u19, u5);
    let u21 = xor(u18, u0);
    let u22 = xor(u20, u16);
    let t2 = and(u15, u20);
    let t3 = and(u1, u5);
    let t4 = xor(t3, t2);
    let t5 = and(u13, u19);
    let t6 = xor(t5, t2);
    let t7 = and(u10, u16);
    let t8 = and(u3, u4);
    let t9 = xor(t8, t7);
    let t10 = and(u11, u12);
    let t11 = xor(t10, t7);
    let t12 = and(u0, u18);
    let t13 = and(u7, u22);
    let t14 = xor(t13, t12);
    let t15 = and(u8, u6);
    let t16 = xor(t15, t12);
    let t17 = xor(t4, t14);
    let t18 = xor(t6, t16);
    let t19 = xor(t9, t14);
    let t20 = xor(t11, t16);
    let t21 = xor(t17, u21);
    let t22 = xor(t18, u2);
    let t23 = xor(t19, u14);
    let t24 = xor(t20, u9);
    let t25 = xor(t21, t22);
    let t26 = and(t21, t23);
    let t27 = xor(t24, t26);
    let t28 = and(t25, t27);
    let t29 = xor(t28, t22);
    let t30 = xor(t23, t24);
    let t31 = xor(t22, t26);
    let t32 = and(t31, t30);
    let t33 = xor(t32, t24);
    let t34 = xor(t23, t33);
    let t35 = xor(t27, t33);
    let t36 = and(t24, t35);
    let t37 = xor(t36, t34);
    let t38 = xor(t27, t36);
    let t39 = and(t29, t38);
    let t40 = xor(t25, t39);
    let t41 = xor(t40, t37);
    let t42 = xor(t29, t33);
    let t43 = xor(t29, t40);
    let t44 = xor(t33, t37);
    let t45 = xor(t42, t41);
    let z0 = and(t44, u20);
    let z1 = and(t37, u5);
    let z2 = and(t33, u19);
    let z3 = and(t43, u16);
    let z4 = and(t40, u4);
    let z5 = and(t29, u12);
    let z6 = and(t42, u18);
    let z7 = and(t45, u22);
    let z8 = and(t41, u6);
    let z9 = and(t44, u15);
    let z10 = and(t37, u1);
    let z11 = and(t33, u13);
    let z12 = and(t43, u10);
    let z13 = and(t40, u3);
    let z14 = and(t29, u11);
    let z15 = and(t42, u0);
    let z16 = and(t45, u7);
    let z17 = and(t41, u8);
    let v0 = xor(z15, z6);
    let v1 = xor(v0, z12);
    let v2 = xor(v1, z13);
    let v3 = xor(v2, z16);
    let v4 = xor(z4, z8);
    let v5 = xor(z10, z2);
    let v6 = xor(v4, z1);
    let v7 = xor(z0, z5);
    let v8 = xor(v5, v6);
    let v9 = xor(v3, z8);
    let v10 = xor(z4, z7);
    let v11 = xor(v8, z3);
    let v12 = xor(v11, z14);
    let v13 = xor(z11, z17);
    let v14 = xor(v13, v2);
    let v15 = xor(v3, z3);
    let v16 = xor(z15, z9);
    let v17 = xor(v13, v16);
    let v18 = xor(v10, v15);
    let v19 = xor(z17, z9);
    let v20 = xor(v12, z11);
    let v21 = xor(v9, z2);
    let v22 = xor(v20, z16);
    let v23 = xor(v9, z5);
    let v24 = xor(v21, z0);
    let v25 = xor(v14, v5);
    let v26 = xor(v1, v22);
    let v27 = xor(v6, v7);
    let v28 = xor(v23, z3);
    let v29 = xor(v10, v7);
    let v30 = xor(v27, v3);
    let v31 = xor(v25, v29);
    let v32 = xor(v12, v19);
    let v33 = xor(v0, v32);
    let v34 = xor(v33, z13);
    Planes {
        p0: v17,
        p1: v18,
        p2: v30,
        p3: v31,
        p4: v24,
        p5: v26,
        p6: v34,
        p7: v28,
    }
}
