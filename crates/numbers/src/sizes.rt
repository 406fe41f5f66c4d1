// The larger and the smaller of two numbers.
ghost use Rattle.std.specs.Prelude.{◌≡◌, min, max};

// The larger of two numbers.
pub fn larger(a: u32, b: u32) -> u32
    ensures { result ≡ max a b }
{
    a.max(b)
}

// The smaller of two numbers.
pub fn smaller(a: u32, b: u32) -> u32
    ensures { result ≡ min a b }
{
    a.min(b)
}
