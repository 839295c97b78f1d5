// The image of a changed table, written into a second buffer.
ghost use Rattle.std.specs.Prelude.{◌≡◌, ◌+◌, ◌*◌, ◌≤◌, length, IfOk};
ghost use Rattle.second.specs.Sizes.{capacity};

use super::answer::Refusal;
use super::stations::Record;
use super::versions::version_for;

// The bytes of an image of n stations.
pub(crate) fn size(n: usize) -> usize
    requires { n ≤ capacity }
    ensures { result ≡ 8 + 16 * n }
{
    8 + 16 * n
}

// Writes the image of the records before a place, of one set in there if there is one, and of those behind; gives its bytes.
pub(crate) fn put_image(
    image: &mut [u8],
    before: &[Record],
    set_in: &[Record],
    behind: &[Record],
) -> Result<u32, Refusal>
    requires { length before.now + length set_in.now + length behind.now ≤ capacity }
    ensures { IfOk result (λ need. need ≤ length image.old) }
{
    let n = before.len() + set_in.len() + behind.len();
    let need = size(n);
    if image.len() < need {
        return Err(Refusal::NoRoom(need as u32));
    }
    let [v1, v0] = version_for(n).to_be_bytes();
    let [n1, n0] = (n as u16).to_be_bytes();
    image[..8].copy_from_slice(&[b'F', b'M', b'S', v1, v0, 0, n1, n0]);
    let (words, _) = image[8..need].as_chunks_mut::<4>();
    let (places, _) = words.as_chunks_mut::<4>();
    let records = before.iter().chain(set_in).chain(behind);
    for (place, record) in places.iter_mut().zip(records) {
        *place = *record;
    }
    Ok(need as u32)
}
