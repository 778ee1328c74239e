// The verdicts on bases: each question's refusal with its smallest triangle, the order of the
// questions, and the limits. The expected numbers are read off docs/RULES.md.
use crate::pyramid::Pyramid;
use point::Vec3A;
use questions::check::check_shape;
use refusal::{Refusal, Unused};
use shape::base_shape::BaseShape;
use shape::list_base::ListBase;
use shape::square_base::SquareBase;
use shape::triangle::Triangle;
use shape::triangle_base::TriangleBase;

const ORIGIN: Vec3A = Vec3A {
    x: 0.0,
    y: 0.0,
    z: 0.0,
};

const fn tri(a: u32, b: u32, c: u32, ab: usize, bc: usize, ca: usize) -> Triangle {
    Triangle {
        a,
        b,
        c,
        ab,
        bc,
        ca,
    }
}

// The verdict on a base with so many points at the origin.
fn check(points: usize, edges: usize, triangles: &[Triangle]) -> Result<(), Refusal> {
    let all = [ORIGIN; 128];
    let points = &all[0..points.min(128)];
    check_shape(&ListBase {
        points,
        triangles,
        edges,
    })
}

// The verdict as a number and a triangle, 0 and 0 where the base is accepted.
fn verdict(points: usize, edges: usize, triangles: &[Triangle]) -> (u8, usize) {
    match check(points, edges, triangles) {
        Ok(()) => (0, 0),
        Err(refusal) => (refusal.number(), refusal.triangle()),
    }
}

// The first `count` of 33 triangles that share nothing.
fn separate(count: usize, points: usize, edges: usize) -> (u8, usize) {
    let mut all = [tri(0, 0, 0, 0, 0, 0); 33];
    for (i, triangle) in all.iter_mut().enumerate() {
        let (a, ab) = (3 * i as u32, 3 * i);
        *triangle = tri(a, a + 1, a + 2, ab, ab + 1, ab + 2);
    }
    verdict(points, edges, &all[0..count.min(33)])
}

#[test]
fn bases_of_the_library_and_of_this_crate_are_accepted(rt: HostRuntime) {
    assert!(rt; check_shape(&TriangleBase).is_ok());
    assert!(rt; check_shape(&SquareBase).is_ok());
    assert!(rt; check_shape(&Pyramid { height: 2.5 }).is_ok());
}

#[test]
fn limits_met_and_passed_by_one(rt: HostRuntime) {
    assert_eq!(rt; separate(32, 96, 96), (0, 0));
    assert_eq!(rt; separate(33, 99, 99), (2, 0));
    assert_eq!(rt; separate(0, 3, 3), (2, 0));
    assert_eq!(rt; separate(32, 97, 96), (3, 0));
    assert_eq!(rt; separate(32, 96, 97), (3, 0));
    assert_eq!(rt; separate(1, 3, 3), (0, 0));
    assert_eq!(rt; separate(1, 2, 3), (3, 0));
    assert_eq!(rt; separate(1, 3, 2), (3, 0));
    assert_eq!(rt; separate(32, 95, 96), (4, 31));
    assert_eq!(rt; separate(32, 96, 95), (4, 31));
}

#[test]
fn each_question_at_its_smallest_triangle(rt: HostRuntime) {
    let first = tri(0, 1, 2, 0, 1, 2);
    assert_eq!(rt; verdict(4, 5, &[first, tri(0, 2, 4, 2, 3, 4)]), (4, 1));
    assert_eq!(rt; verdict(4, 5, &[first, tri(0, 2, 3, 2, 3, 5)]), (4, 1));
    assert_eq!(rt; verdict(4, 5, &[first, tri(0, 2, 0, 2, 3, 4)]), (5, 1));
    // edge 0 joins 0 and 1 in the first triangle, 2 and 3 in the second
    assert_eq!(rt; verdict(4, 5, &[first, tri(0, 2, 3, 2, 0, 4)]), (6, 1));
    // corners 0 and 2 have edge 2 in the first triangle, 3 in the second
    assert_eq!(rt; verdict(4, 6, &[first, tri(0, 2, 3, 3, 4, 5)]), (6, 1));
    // two sides of one triangle on one edge
    assert_eq!(rt; verdict(3, 3, &[tri(0, 1, 2, 0, 0, 2)]), (6, 0));
    // a turned copy, and two triangles that walk the same way along edge 0
    assert_eq!(rt; verdict(3, 3, &[first, tri(1, 2, 0, 1, 2, 0)]), (7, 1));
    assert_eq!(rt; verdict(4, 5, &[first, tri(0, 1, 3, 0, 3, 4)]), (7, 1));
    // the same three corners, seen from behind
    assert_eq!(rt; verdict(3, 3, &[first, tri(0, 2, 1, 2, 1, 0)]), (8, 1));
    assert_eq!(rt; verdict(3, 4, &[first]), (9, 0));
    assert_eq!(rt; verdict(4, 3, &[first]), (9, 0));
}

#[test]
fn each_question_is_put_to_all_triangles_before_the_next(rt: HostRuntime) {
    let first = tri(0, 1, 2, 0, 1, 2);
    // counts before everything else
    assert_eq!(rt; verdict(2, 2, &[]), (2, 0));
    assert_eq!(rt; verdict(2, 3, &[tri(9, 9, 9, 9, 9, 9)]), (3, 0));
    // a repeated corner at 0, a corner out of range at 1
    assert_eq!(rt;
        verdict(4, 5, &[tri(0, 0, 2, 0, 1, 2), tri(0, 2, 4, 2, 3, 4)]),
        (4, 1)
    );
    // a mismatch at 1, a repeated corner at 2
    assert_eq!(rt;
        verdict(4, 5, &[first, tri(0, 2, 3, 2, 0, 4), tri(3, 3, 1, 3, 3, 4)]),
        (5, 2)
    );
    // one direction twice at 1, a mismatch at 2
    assert_eq!(rt;
        verdict(4, 5, &[first, tri(0, 1, 3, 0, 3, 4), tri(1, 2, 3, 2, 3, 4)]),
        (6, 2)
    );
    // the same corners at 1, one direction twice at 2
    assert_eq!(rt;
        verdict(4, 5, &[first, tri(0, 2, 1, 2, 1, 0), tri(0, 1, 3, 0, 3, 4)]),
        (7, 2)
    );
    // the same corners at 1, an edge that is not used
    assert_eq!(rt; verdict(3, 4, &[first, tri(0, 2, 1, 2, 1, 0)]), (8, 1));
}

#[test]
fn the_first_unused_edge_or_point_is_named(rt: HostRuntime) {
    assert_eq!(rt;
        check(5, 5, &[tri(0, 1, 3, 0, 1, 3)]),
        Err(Refusal::Unused {
            unused: Unused::Edge(2)
        })
    );
    assert_eq!(rt;
        check(5, 3, &[tri(0, 1, 3, 0, 1, 2)]),
        Err(Refusal::Unused {
            unused: Unused::Point(2)
        })
    );
}
