// Rings and edges are copied, alone and in arrays.
use growing::edge::Edge;
use rings::contents::Ring;

fn side_len(ring: Ring) -> usize {
    ring.side_len()
}

fn count(edge: Edge) -> usize {
    edge.vertices().len()
}

#[test]
fn a_ring_and_an_edge_are_copied(rt: HostRuntime) {
    let ring = Ring::blank();
    let rings = [ring; 96];
    assert_eq!(rt;
        (side_len(ring), side_len(rings[95]), side_len(ring)),
        (0, 0, 0)
    );
    let edge = Edge::empty();
    let edges = [edge; 96];
    assert_eq!(rt; (count(edge), count(edges[95]), count(edge)), (0, 0, 0));
}
