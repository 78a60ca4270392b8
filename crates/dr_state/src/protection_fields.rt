ghost use Rattle.std.specs.Prelude.{◌≡◌, length};

use dr_bitmap::Bitmap;
use dr_marks::Marks;
use dr_protect::Protect;

/// Which pages may be written, by whom without asking, which are closing and which are dirty.
#[derive(Drop)]
pub struct Protection {
    pub permissions: Protect,
    pub closing: Marks,
    pub dirty: Bitmap,
    ghost closing_sized: { length closing.0 ≡ permissions.pages },
    ghost dirty_sized: { length dirty ≡ permissions.pages },
}
