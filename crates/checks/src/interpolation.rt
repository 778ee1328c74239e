// Interpolation through special values. The expected bits are answers of the Rust crate's own
// `lerp`, `lerp_half` and `lerp_multiple`, with every NaN written as 0x7fc00000.
use point::Vec3A;
use point::interpolation::{lerp, lerp_half};
use refusal::Refusal;
use shape::base_shape::BaseShape;
use shape::list_base::ListBase;
use shape::square_base::SquareBase;
use shape::triangle_base::TriangleBase;
use std::num::{f32_from_bits_with_nan, f32_to_bits_with_nan};
use std::process::Abort;
use std::test::Fail;

// p, a, b, lerp(a, b, p), lerp_half(a, b)
const ROWS: [[u32; 13]; 24] = [
    [
        0x00000000, 0x7f7fffff, 0x007fffff, 0xff800000, 0x00000001, 0x80000000, 0x80000001,
        0x7f7fffff, 0x007fffff, 0xff800000, 0x7effffff, 0x00400000, 0xff800000,
    ],
    [
        0x3f800000, 0xc9742400, 0x80000001, 0xff800000, 0x00000001, 0x007fffff, 0x7f800000,
        0x00000001, 0x007fffff, 0x7fc00000, 0xc8f42400, 0x003fffff, 0x7fc00000,
    ],
    [
        0x3f000000, 0x00000001, 0x7fc00000, 0x00000001, 0x3f800000, 0x007fffff, 0x00800000,
        0x3f000000, 0x7fc00000, 0x00400000, 0x3f000000, 0x7fc00000, 0x00400000,
    ],
    [
        0x3eaaaaab, 0x80000000, 0x40490fdb, 0x49742400, 0x80000000, 0x00000000, 0xc9742400,
        0x80000000, 0x40060a91, 0x48a2c2a9, 0x80000000, 0x3fc90fdb, 0x00000000,
    ],
    [
        0x3d9d89d9, 0x80000001, 0x7f800000, 0x7f800000, 0x7f7fffff, 0x40490fdb, 0x40490fdb,
        0x7d9d89d8, 0x7f800000, 0x7f800000, 0x7effffff, 0x7f800000, 0x7f800000,
    ],
    [
        0x3f6c4ec5, 0x7fc00000, 0xff7fffff, 0x7f800000, 0x7fc00000, 0x49742400, 0x00800000,
        0x7fc00000, 0xfd9d89d7, 0x7f800000, 0x7fc00000, 0xfeffffff, 0x7f800000,
    ],
    [
        0x80000000, 0xff800000, 0x00000000, 0x80000001, 0x80000001, 0x00000000, 0x00000000,
        0xff800000, 0x00000000, 0x80000001, 0xff800000, 0x00000000, 0x80000000,
    ],
    [
        0x7fc00000, 0x49742400, 0x7fc00000, 0x40490fdb, 0x7f7fffff, 0x7fc00000, 0x40490fdb,
        0x7fc00000, 0x7fc00000, 0x7fc00000, 0x7effffff, 0x7fc00000, 0x40490fdb,
    ],
    [
        0x3f6c4ec5, 0xbdcccccd, 0x49742400, 0xff800000, 0x80000000, 0x80000001, 0x00800000,
        0xbbfc0fc0, 0x47963d89, 0xff800000, 0xbd4ccccd, 0x48f42400, 0xff800000,
    ],
    [
        0x3f800000, 0xbdcccccd, 0x3f800000, 0x80000000, 0x7f7fffff, 0x00000000, 0xc9742400,
        0x7f7fffff, 0x00000000, 0xc9742400, 0x7effffff, 0x3f000000, 0xc8f42400,
    ],
    [
        0x3f6c4ec5, 0x00000001, 0x7f7fffff, 0x80000001, 0x7fc00000, 0x00000000, 0x7f7fffff,
        0x7fc00000, 0x7d9d89d7, 0x7f6c4ec4, 0x7fc00000, 0x7effffff, 0x7effffff,
    ],
    [
        0x00000000, 0xff7fffff, 0x80000000, 0x80000000, 0xbdcccccd, 0x00000000, 0x007fffff,
        0xff7fffff, 0x00000000, 0x00000000, 0xfeffffff, 0x00000000, 0x00400000,
    ],
    [
        0x3f6c4ec5, 0x80000000, 0x7fc00000, 0x7fc00000, 0x49742400, 0x7f7fffff, 0x7f800000,
        0x49615c4f, 0x7fc00000, 0x7fc00000, 0x48f42400, 0x7fc00000, 0x7fc00000,
    ],
    [
        0x3f6c4ec5, 0xbdcccccd, 0xff800000, 0x7f800000, 0x3f800000, 0x3f800000, 0x3f800000,
        0x3f6a56a6, 0xff800000, 0x7f800000, 0x3ee66666, 0xff800000, 0x7f800000,
    ],
    [
        0x3f000000, 0x80000001, 0x7f800000, 0x80000000, 0x7f800000, 0x80000001, 0x7fc00000,
        0x7f800000, 0x7f800000, 0x7fc00000, 0x7f800000, 0x7f800000, 0x7fc00000,
    ],
    [
        0x3d9d89d9, 0x007fffff, 0x7f800000, 0xbdcccccd, 0x00800000, 0x7fc00000, 0x80000000,
        0x00800000, 0x7fc00000, 0xbdbd0bd1, 0x00800000, 0x7fc00000, 0xbd4ccccd,
    ],
    [
        0x3f000000, 0x40490fdb, 0x7f7fffff, 0x7fc00000, 0x7f7fffff, 0x80000001, 0xff800000,
        0x7effffff, 0x7effffff, 0x7fc00000, 0x7effffff, 0x7effffff, 0x7fc00000,
    ],
    [
        0x00000000, 0xc9742400, 0x49742400, 0xc9742400, 0x7fc00000, 0xbdcccccd, 0x49742400,
        0x7fc00000, 0x49742400, 0xc9742400, 0x7fc00000, 0x48f423fe, 0x00000000,
    ],
    [
        0x3f6c4ec5, 0xc9742400, 0x49742400, 0xc9742400, 0x3f800000, 0x40490fdb, 0x007fffff,
        0xc7963d13, 0x47963efc, 0xc7963d89, 0xc8f423f0, 0x48f42432, 0xc8f42400,
    ],
    [
        0x00000000, 0x7fc00000, 0x7fc00000, 0x00000001, 0xff800000, 0xff800000, 0x7fc00000,
        0x7fc00000, 0x7fc00000, 0x7fc00000, 0x7fc00000, 0x7fc00000, 0x7fc00000,
    ],
    [
        0x3f6c4ec5, 0x80000001, 0x7f800000, 0xc9742400, 0xff800000, 0x00000001, 0x00000000,
        0xff800000, 0x7f800000, 0xc7963d89, 0xff800000, 0x7f800000, 0xc8f42400,
    ],
    [
        0x3f000000, 0x49742400, 0x007fffff, 0x7f7fffff, 0x7f800000, 0x40490fdb, 0x7fc00000,
        0x7f800000, 0x3fc90fdb, 0x7fc00000, 0x7f800000, 0x3fc90fdb, 0x7fc00000,
    ],
    [
        0x00000000, 0x80000000, 0x00000001, 0x007fffff, 0xff7fffff, 0x40490fdb, 0x80000001,
        0x80000000, 0x00000001, 0x007fffff, 0xfeffffff, 0x3fc90fdb, 0x003fffff,
    ],
    [
        0x3d9d89d9, 0xc9742400, 0xbdcccccd, 0xbdcccccd, 0x00000001, 0x7f800000, 0x00000000,
        0xc9615c4f, 0x7f800000, 0xbdbd0bd1, 0xc8f42400, 0x7f800000, 0xbd4ccccd,
    ],
];

const NINE: u32 = 0x4110_0000;

const UNTOUCHED: [u32; 3] = [NINE, NINE, NINE];

fn bits(p: Vec3A) -> [u32; 3] {
    [
        f32_to_bits_with_nan(p.x),
        f32_to_bits_with_nan(p.y),
        f32_to_bits_with_nan(p.z),
    ]
}

#[test]
fn special_values_as_the_crate_has_them(rt: HostRuntime) {
    for r in &ROWS {
        let p = f32_from_bits_with_nan(r[0]);
        let a = Vec3A::from_bits(r[1], r[2], r[3]);
        let b = Vec3A::from_bits(r[4], r[5], r[6]);
        assert_eq!(rt; bits(lerp(a, b, p)), [r[7], r[8], r[9]]);
        assert_eq!(rt; bits(lerp_half(a, b)), [r[10], r[11], r[12]]);
    }
}

// Interpolates along the list, over six points that hold nines, and compares what they then hold.
fn along<S: BaseShape>(
    rt: &impl Abort,
    base: &S,
    list: &[u32],
    want: &[[u32; 3]; 6],
) -> Result<(), Fail> {
    let a = Vec3A::new(1.0, -2.5, 1.0e6);
    let b = Vec3A::new(0.3, 7.75, -1.0e6);
    let mut buffer = [Vec3A::from_bits(NINE, NINE, NINE); 6];
    base.interpolate_multiple(a, b, list, &mut buffer)?;
    for (point, expected) in buffer.iter().zip(want) {
        assert_eq!(rt; bits(*point), *expected);
    }
    Ok(())
}

#[test]
fn listings_as_the_crate_has_them(rt: HostRuntime) -> Result<(), Fail> {
    let u = UNTOUCHED;
    let half = [0x3f26_6666, 0x4028_0000, 0];
    let quarter = [0x3f53_3333, 0x3d80_0000, 0x48f4_2400];
    let three_quarters = [0x3ef3_3334, 0x40a6_0000, 0xc8f4_2400];
    along(
        &rt,
        &TriangleBase,
        &[3, 1, 4],
        &[u, half, u, quarter, three_quarters, u],
    )?;
    along(&rt, &TriangleBase, &[5], &[u, u, u, u, u, half])?;
    along(
        &rt,
        &ListBase {
            points: &[],
            triangles: &[],
            edges: 0,
        },
        &[],
        &[u, u, u, u, u, u],
    )?;
    // of the three listings of vertex 2 the last stands
    let third = [0x3f14_7ae1, 0x4069_999a, 0xc843_5002];
    let last = [0x3ee1_47ae, 0x40b6_6667, 0xc912_7c00];
    along(&rt, &SquareBase, &[2, 2, 0, 2], &[third, u, last, u, u, u])
}

// The refusal of a listing over six points that hold nines, which it must leave.
fn refused(rt: &impl Abort, list: &[u32]) -> Result<Refusal, Fail> {
    let a = Vec3A::new(1.0, -2.5, 1.0e6);
    let mut buffer = [Vec3A::from_bits(NINE, NINE, NINE); 6];
    let Err(e) = SquareBase.interpolate_multiple(a, a, list, &mut buffer) else {
        return Err(Fail::new("accepted"));
    };
    for p in &buffer {
        assert_eq!(rt; bits(*p), UNTOUCHED);
    }
    Ok(e)
}

#[test]
fn refused_listings_leave_the_points(rt: HostRuntime) -> Result<(), Fail> {
    assert_eq!(rt;
        refused(&rt, &[0, 6])?,
        Refusal::InvalidListing {
            listed: 2,
            points: 6
        }
    );
    assert_eq!(rt;
        refused(&rt, &[4_294_967_295])?,
        Refusal::InvalidListing {
            listed: 1,
            points: 6
        }
    );
    assert_eq!(rt;
        refused(&rt, &[0; 3361])?,
        Refusal::InvalidListing {
            listed: 3361,
            points: 6
        }
    );
    assert_eq!(rt; refused(&rt, &[0; 3361])?.number(), 16);
    Ok(())
}

#[test]
fn the_longest_listing(rt: HostRuntime) -> Result<(), Fail> {
    let a = Vec3A::new(1.0, -2.5, 1.0e6);
    let b = Vec3A::new(0.3, 7.75, -1.0e6);
    let mut one = [a];
    TriangleBase.interpolate_multiple(a, b, &[0; 3360], &mut one)?;
    assert_eq!(rt; bits(one[0]), [0x3e99_b4e7, 0x40f7_e704, 0xc973_fece]);
    Ok(())
}

#[test]
fn points_are_equal_by_bits(rt: HostRuntime) {
    let zero = Vec3A::from_bits(0, 0, 0);
    assert!(rt; zero.same_bits(Vec3A::from_bits(0, 0, 0)));
    assert!(rt; !zero.same_bits(Vec3A::from_bits(0x8000_0000, 0, 0)));
    assert!(rt; !zero.same_bits(Vec3A::from_bits(0, 0, 1)));
    assert!(rt; Vec3A::from_bits(0x7fc0_0000, 1, 2).same_bits(Vec3A::from_bits(0xffc0_0001, 1, 2)));
}
