// Base shapes: points, triangles, edges and the rules by which points are interpolated.
#![tactic(auto)]

pub mod base_shape;
pub mod linear_base;
pub mod list_base;
pub mod listing;
pub mod lists;
pub mod square_base;
pub mod triangle;
pub mod triangle_base;
