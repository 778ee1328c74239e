// Data slices filled from small meshes by generators of the tests' own, worked out by hand.
ghost use Rattle.std.specs.Prelude.{ℕ, ◌+◌, ◌%◌};
ghost use Rattle.point.specs.declared.Vec3A.{Vec3A};

use filling::fill::fill;
use filling::generator::Generator;
use point::Vec3A;
use refusal::Refusal;
use shape::triangle_base::TriangleBase;
use std::test::Fail;
use table::table::Table;

// The height of each point.
#[derive(Drop)]
struct Heights;

impl Generator for Heights {
    type Item = f32;

    ghost generates = { λ s v. (v.z, s) };

    fn generate(&mut self, point: Vec3A) -> f32 {
        point.z
    }
}

// Labels in turn: how many were handed out.
#[derive(Drop)]
struct Labels {
    next: u32,
}

impl Generator for Labels {
    type Item = u32;

    ghost generates = { λ s v. (s.next, record { next = (s.next + 1) % 4294967296 }) };

    fn generate(&mut self, point: Vec3A) -> u32 {
        let label = self.next;
        self.next = label.wrapping_add(1);
        label
    }
}

const ORIGIN: Vec3A = Vec3A {
    x: 0.0,
    y: 0.0,
    z: 0.0,
};

// Points of which the vertex at i lies at the height i.
fn rising() -> [Vec3A; 3360] {
    let mut points = [ORIGIN; 3360];
    points[1].z = 1.0;
    points[2].z = 2.0;
    points[5].z = 5.0;
    points
}

#[test]
fn heights_are_those_of_the_vertices(rt: HostRuntime) -> Result<(), Fail> {
    let table = Table::make(rt.alloc(), &TriangleBase, 1)??;
    let mut data = [9.0; 8];
    fill(&table, &rising(), &mut Heights, &mut data)?;
    assert_eq!(rt; data, [0.0, 1.0, 2.0, 0.0, 0.0, 5.0, 9.0, 9.0]);
    Ok(())
}

#[test]
fn labels_go_on_where_they_stopped(rt: HostRuntime) -> Result<(), Fail> {
    let table = Table::make(rt.alloc(), &TriangleBase, 0)??;
    let mut labels = Labels { next: 7 };
    let mut data = [0; 4];
    fill(&table, &[ORIGIN; 3360], &mut labels, &mut data)?;
    assert_eq!(rt; data, [7, 8, 9, 0]);
    fill(&table, &[ORIGIN; 3360], &mut labels, &mut data[1..])?;
    assert_eq!(rt; data, [7, 10, 11, 12]);
    assert_eq!(rt; labels.next, 13);
    Ok(())
}

#[test]
fn a_short_slice_is_left_and_so_is_the_generator(rt: HostRuntime) -> Result<(), Fail> {
    let table = Table::make(rt.alloc(), &TriangleBase, 1)??;
    let mut labels = Labels { next: 7 };
    let mut data = [0; 5];
    assert_eq!(rt;
        fill(&table, &[ORIGIN; 3360], &mut labels, &mut data),
        Err(Refusal::DataTooShort {
            vertices: 6,
            length: 5
        })
    );
    assert_eq!(rt; data, [0; 5]);
    assert_eq!(rt; labels.next, 7);
    let mut none: [u32; 0] = [];
    fill(
        &Table::blank(rt.alloc()),
        &[ORIGIN; 3360],
        &mut labels,
        &mut none,
    )?;
    assert_eq!(rt; labels.next, 7);
    Ok(())
}
