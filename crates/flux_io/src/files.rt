// Looks into a list of named files.
ghost use Rattle.std.specs.Prelude.{◌≡◌, ◌<◌, ◌^◌, ◌+◌, length, min, take, drop, None, Some, MatchOption};
ghost use Rattle.flux_io.specs.Outside.{entry};
ghost use Rattle.flux_io.specs.Files.{listed, bytes_at};

// Where the first file of that name stands.
pub fn find(files: &[(String, Vec<u8>)], name: &str) -> Option<usize>
    ensures { MatchOption result
        (entry (listed files.now) name.now ≡ None)
        (λ index. entry (listed files.now) name.now ≡ Some (bytes_at files.now index)) }
{
    for (i, file) in files.iter().enumerate() {
        if file.0.as_str() == name {
            return Some(i);
        }
    }
    None
}

// What is left of the file at an index, after so many bytes.
fn rest_at(files: &[(String, Vec<u8>)], index: usize, at: usize) -> &[u8]
    ensures bytes { result.now ≡ drop at (bytes_at files.now index) }
    ensures room { 0 < length result.now → at + length result.now < 2 ^ 64 }
{
    match files.get(index) {
        Some(file) => {
            let bytes = file.1.as_slice();
            if at <= bytes.len() { &bytes[at..] } else { &[] }
        }
        None => &[],
    }
}

// Copies as much of what is left as fits, and answers how much that is.
pub fn take_front(files: &[(String, Vec<u8>)], index: usize, at: usize, buf: &mut [u8]) -> usize
    ensures exact { result ≡ min (length buf.old) (length (drop at (bytes_at files.now index))) }
    ensures room { at + result < 2 ^ 64 }
    ensures taken { take result buf.new ≡ take result (drop at (bytes_at files.now index)) }
{
    let rest = rest_at(files, index, at);
    let n = rest.len().min(buf.len());
    buf[..n].copy_from_slice(&rest[..n]);
    n
}
