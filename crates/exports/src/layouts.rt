// The mark of the structs' layout, for object files in C and Rust to refer to.
ghost use Rattle.std.specs.Prelude.{◌≡◌};
ghost use Rattle.exports.specs.Exported.{layout_number};

// The number of the layout. It stands in the name too, so that an object file that was compiled for
// another layout does not link.
#[unsafe(no_mangle)]
pub extern "C" fn bungero_layout_1() -> u64
    ensures { result ≡ layout_number }
{
    1
}
