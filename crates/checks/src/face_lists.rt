// Face lists of small meshes, worked out by hand from the definitions, and what is refused.
use indices::all_faces::get_all_indices;
use indices::triangle_faces::get_indices;
use refusal::Refusal;
use shape::square_base::SquareBase;
use shape::triangle_base::TriangleBase;
use std::test::Fail;
use table::table::Table;

#[test]
fn a_triangle_undivided_and_divided_once(rt: HostRuntime) -> Result<(), Fail> {
    let mut table = Table::make(rt.alloc(), &TriangleBase, 0)??;
    let mut out = [9; 4];
    assert_eq!(rt; get_all_indices(&table, &mut out)?, 3);
    assert_eq!(rt; out, [2, 1, 0, 9]);
    table.subdivide(1)?;
    let mut out = [9; 12];
    assert_eq!(rt; get_indices(&table, 0, &mut out)?, 12);
    assert_eq!(rt; out, [2, 3, 5, 1, 4, 3, 0, 5, 4, 3, 4, 5]);
    Ok(())
}

#[test]
fn a_history_numbers_its_vertices_in_its_own_order(rt: HostRuntime) -> Result<(), Fail> {
    let table = Table::make(rt.alloc(), &TriangleBase, 2)??;
    let mut out = [0; 27];
    assert_eq!(rt; get_all_indices(&table, &mut out)?, 27);
    assert_eq!(rt; &out[..12], [2, 3, 8, 1, 5, 4, 0, 7, 6, 4, 9, 3].as_slice());
    let mut table = Table::make(rt.alloc(), &TriangleBase, 1)??;
    table.subdivide(1)?;
    assert_eq!(rt; get_all_indices(&table, &mut out)?, 27);
    assert_eq!(rt; &out[..9], [2, 3, 8, 1, 4, 6, 0, 5, 7].as_slice());
    Ok(())
}

#[test]
fn an_edge_shared_is_read_backward_by_the_second(rt: HostRuntime) -> Result<(), Fail> {
    let table = Table::make(rt.alloc(), &SquareBase, 2)??;
    let mut out = [0; 27];
    assert_eq!(rt; get_indices(&table, 1, &mut out)?, 27);
    assert_eq!(rt; &out[..3], [0, 5, 13].as_slice());
    Ok(())
}

#[test]
fn refused_faces_leave_the_buffer(rt: HostRuntime) -> Result<(), Fail> {
    let table = Table::make(rt.alloc(), &SquareBase, 1)??;
    let mut out = [9; 23];
    assert_eq!(rt;
        get_all_indices(&table, &mut out),
        Err(Refusal::BufferTooShort {
            needed: 24,
            length: 23
        })
    );
    assert_eq!(rt;
        get_indices(&table, 2, &mut out),
        Err(Refusal::NoTriangle {
            triangle: 2,
            triangles: 2
        })
    );
    assert_eq!(rt; out, [9; 23]);
    let blank = Table::blank(rt.alloc());
    assert_eq!(rt; get_all_indices(&blank, &mut [])?, 0);
    Ok(())
}
