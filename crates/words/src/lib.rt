// Lists of words: the first of them, comparing, copying.
#![tactic(auto)]

ghost use Rattle.std.specs.Prelude.{◌≡◌, ◌≤◌, length, take};
ghost use Rattle.words.specs.Words as spec;

// The rule: how many commands a history may have. It is handed to the functions that need it.
pub const LIMIT: u8 = 32;

// The capacity: how many words the array of a history and a row of a table have.
pub const CAPACITY: usize = 32;

// The first n items, or all of them if there are fewer.
pub fn first<T>(items: &[T], n: usize) -> &[T]
    ensures { result.now ≡ take n items.now }
{
    if n <= items.len() { &items[..n] } else { items }
}

// Whether two lists are equal.
pub fn same(g: &[u64], h: &[u64]) -> bool
    ensures { result ≡ spec.equal g.now h.now }
{
    g == h
}

// How many first words h and g have in common.
pub fn common(h: &[u64], g: &[u64]) -> usize
    ensures { spec.Common h.now g.now result }
{
    h.iter().zip(g).take_while(|(c, d)| c == d).count()
}

// Copies src to the front of dst.
fn copy(dst: &mut [u64], src: &[u64])
    requires { length src.now ≤ length dst.old }
    ensures { (length dst.new ≡ length dst.old) × (take (length src.now) dst.new ≡ src.now) }
{
    for i in 0..src.len() {
        dst[i] = src[i];
    }
}

// Fills dst with the words of src, and with zeros where src has no more.
pub fn fill(dst: &mut [u64], src: &[u64])
    ensures { dst.new ≡ spec.padded (length dst.old) src.now }
{
    let fit = first(src, dst.len());
    copy(dst, fit);
    dst[fit.len()..].fill(0);
}
