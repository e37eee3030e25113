// Saving: a plane file from planes.
ghost use Rattle.std.specs.Prelude.{◌≡◌, length};
ghost use Rattle.picture.specs.Sizes.{macroblocks};
ghost use Rattle.picture.specs.Planes.{Lengths};
ghost use Rattle.picture.specs.Refusals.{number_of};
ghost use Rattle.plane_file.specs.Layout.{total, file};
ghost use Rattle.plane_file.specs.Numbers.{save_number};
ghost use Rattle.plane_file.specs.Calls.{saved};

use crate::layout::Layout;
use crate::word::put_words;
use picture::frame::Frame;
use picture::picture_size::PictureSize;
use picture::planes::Planes;
use picture::refusals::Refusal;
use picture::size::Size;

// Writes the whole file into bytes of its length.
fn save_file(mode: u32, size: PictureSize, planes: &Planes, bytes: &mut [u8])
    requires lengths { Lengths (macroblocks size) planes.now }
    requires bytes_len { length bytes.old ≡ total (macroblocks size) }
    ensures { bytes.new ≡ file mode size planes.now }
{
    let starts = Layout::new(size.macroblocks());
    let size = size.get();
    let header = [
        mode,
        size.width.0,
        size.height.0,
        starts.dc,
        starts.low,
        starts.high,
        starts.total,
        0,
    ];
    put_words(&header, bytes, 0);
    put_words(planes.dc, bytes, starts.dc as usize);
    put_words(planes.low, bytes, starts.low as usize);
    put_words(planes.high, bytes, starts.high as usize);
}

// A file of planes.
pub fn save(mode: u32, size: Size, planes: &Planes, bytes: &mut [u8]) -> Result<(), Refusal>
    ensures number { number_of result ≡ save_number mode size planes.now bytes.old }
    ensures bytes_after { bytes.new ≡ saved mode size planes.now bytes.old }
{
    let frame = Frame::new(mode, size)?;
    let n = frame.size.macroblocks();
    planes.check(n)?;
    if bytes.len() != Layout::new(n).total as usize {
        return Err(Refusal::FileLength);
    }
    save_file(mode, frame.size, planes, bytes);
    Ok(())
}
