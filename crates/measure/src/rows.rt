// The class of a size by arithmetic: what the benchmark holds the table against. No call uses it.
ghost use Rattle.std.specs.Prelude.{◌≡◌, ◌<◌};
ghost use Rattle.model.specs.Sizes.{class_of};
ghost use Rattle.model.specs.Numbers.{large_size};

// The class of a size below 8,192: the size in steps, rounded up, behind the classes of the smaller steps.
pub fn class_of_size(size: u32) -> u32
    requires { (0 < size) × (size < large_size) }
    ensures { result ≡ class_of size }
{
    match size {
        0..128 => size.div_ceil(8) - 1,
        128..256 => size.div_ceil(16) + 7,
        256..512 => size.div_ceil(32) + 15,
        512..1024 => size.div_ceil(64) + 23,
        1024..2048 => size.div_ceil(128) + 31,
        2048..4096 => size.div_ceil(256) + 39,
        _ => size.div_ceil(512) + 47,
    }
}
