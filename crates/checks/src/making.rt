// Tables of meshes as they are made and subdivided: how many vertices there are, which is the points, n for
// each edge and n(n - 1)/2 for each triangle, and what is refused.
use point::Vec3A;
use refusal::Refusal;
use shape::list_base::ListBase;
use shape::square_base::SquareBase;
use shape::triangle::Triangle;
use shape::triangle_base::TriangleBase;
use std::test::Fail;
use table::table::Table;

#[test]
fn a_triangle_and_a_square_are_made(rt: HostRuntime) -> Result<(), Fail> {
    let table = Table::make(rt.alloc(), &TriangleBase, 12)??;
    assert_eq!(rt; (table.n, table.total), (12, 105));
    let table = Table::make(rt.alloc(), &SquareBase, 0)??;
    assert_eq!(rt; (table.n, table.total), (0, 4));
    Ok(())
}

#[test]
fn a_mesh_is_subdivided_up_to_twelve(rt: HostRuntime) -> Result<(), Fail> {
    let mut table = Table::make(rt.alloc(), &SquareBase, 3)??;
    table.subdivide(4)?;
    assert_eq!(rt; (table.n, table.total), (7, 81));
    assert_eq!(rt;
        table.subdivide(6),
        Err(Refusal::SubdividedTooOften {
            count: 7,
            amount: 6
        })
    );
    assert_eq!(rt; (table.n, table.total), (7, 81));
    table.subdivide(0)?;
    table.subdivide(5)?;
    assert_eq!(rt; (table.n, table.total), (12, 196));
    assert_eq!(rt; table.subdivisions(), 12);
    assert_eq!(rt; table.vertices_per_main_triangle_shared(), 91);
    assert_eq!(rt; table.shared_vertices(), 64);
    Ok(())
}

// The largest mesh: 32 triangles that share nothing.
#[test]
fn the_largest_mesh_is_made(rt: HostRuntime) -> Result<(), Fail> {
    let points = [Vec3A::new(0.5, 0.25, -1.0); 96];
    let mut triangles = [Triangle::default(); 32];
    for (i, triangle) in triangles.iter_mut().enumerate() {
        let (a, ab) = (3 * i as u32, 3 * i);
        *triangle = Triangle {
            a,
            b: a + 1,
            c: a + 2,
            ab,
            bc: ab + 1,
            ca: ab + 2,
        };
    }
    let base = ListBase {
        points: &points,
        triangles: &triangles,
        edges: 96,
    };
    let table = Table::make(rt.alloc(), &base, 12)??;
    assert_eq!(rt; (table.n, table.total), (12, 3360));
    Ok(())
}

#[test]
fn the_count_is_asked_before_the_base(rt: HostRuntime) -> Result<(), Fail> {
    let base = ListBase {
        points: &[],
        triangles: &[],
        edges: 0,
    };
    let refused = Table::make(rt.alloc(), &base, 13)?;
    assert!(rt; matches!(refused, Err(Refusal::TooManySubdivisions { count: 13 })));
    let refused = Table::make(rt.alloc(), &base, 12)?;
    assert!(rt; matches!(refused, Err(Refusal::TriangleCount { triangles: 0 })));
    let table = Table::blank(rt.alloc());
    assert_eq!(rt; (table.n, table.total), (0, 0));
    Ok(())
}
