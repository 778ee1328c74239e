// How many numbers and breaks the faces and strips of one triangle have, as formulas.
ghost use Rattle.std.specs.Prelude.{◌≡◌, ℕ, ◌+◌, ◌*◌, ◌/◌};
ghost use Rattle.pattern.specs.Amounts.{triangle_face_count, triangle_line_numbers, triangle_line_breaks};

// The numbers of one triangle's faces at count `n`.
pub fn triangle_face_numbers(n: u8) -> usize
    ensures { result ≡ 3 * triangle_face_count n }
{
    let n = usize::from(n);
    3 * ((n + 1) * (n + 1))
}

// The numbers of one triangle's strips at count `n`.
pub fn triangle_line_numbers(n: u8) -> usize
    ensures { result ≡ triangle_line_numbers n }
{
    let n = usize::from(n);
    3 * (n * (n + 1) / 2) + n / 3 + (n + 2) / 3
}

// The breaks of one triangle's strips at count `n`.
pub fn triangle_line_breaks(n: u8) -> usize
    ensures { result ≡ triangle_line_breaks n }
{
    if n == 0 {
        1
    } else {
        1 + usize::from((n - 1) / 3)
    }
}
