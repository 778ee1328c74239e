// What interpolating along a list of vertices asks of the list.
ghost use Rattle.std.specs.Prelude.{◌≡◌, ◌<◌, ◌≤◌};
ghost use Rattle.shape.specs.Listing.{all_below, listable, share, LastListingStands};

// The largest number of vertices that a mesh can have.
pub const MAX_VERTICES: usize = 3360;

fn all_below(indices: &[u32], points: usize) -> bool
    ensures { result ≡ all_below indices.now points }
{
    indices.iter().all(|i| (*i as usize) < points)
}

// Whether at most 3,360 vertices are listed, each one of the `points` points.
pub(crate) fn can_list(indices: &[u32], points: usize) -> bool
    ensures { result ≡ listable indices.now points }
{
    indices.len() <= MAX_VERTICES && all_below(indices, points)
}

// (i + 1) / (n + 1)
pub(crate) fn fraction(i: usize, n: usize) -> f32
    requires { (i < n) × (n ≤ 3360) }
    ensures { result ≡ share i n }
{
    (i + 1) as f32 / (n + 1) as f32
}

// Of a vertex that is listed several times the last listing stands, and what is not listed is left.
pub fn last_listing_stands()
    ensures { LastListingStands }
{}
