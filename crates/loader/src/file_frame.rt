use device_state::Devices;
use page_bitmap::Bitmap;
use ram_block::Shape;

/// What a file says but for the bytes of its pages: the shape of its machine, the bitmap of each block, and the vCPUs
/// and devices.
#[derive(Drop)]
pub struct Frame {
    pub shape: Shape,
    pub bits: Vec<Bitmap>,
    pub devices: Devices,
}
