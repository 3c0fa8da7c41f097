//! The image of the first data memory as harts take it.
ghost use Rattle.std.specs.Prelude.{◌≡◌, ◌<◌, ℕ, slice_index};
ghost use Rattle.jit_main.specs.Images.{hart_image};

use hart::Image;
use ir_data::image::Image as FirstImage;

// Each byte is below 256.
fn bytes_fit(bytes: &[u8])
    ensures { (i : ℕ) → slice_index bytes.now i < 256 }
{}

/// The image as harts take it.
pub fn image_for_harts(first: FirstImage) -> Image
    ensures image { result ≡ hart_image first }
    ensures bytes { (i : ℕ) → slice_index result.bytes i < 256 }
{
    bytes_fit(first.bytes.as_slice());
    Image {
        bytes: first.bytes,
        top: first.top,
    }
}
