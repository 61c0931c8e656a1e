//! Varints, read and written.
ghost use Rattle.std.specs.Prelude.{◌≡◌, ◌≤◌, ◌<◌, ◌++◌, List, ℕ, drop, length};
ghost use Rattle.uf_varint.specs.Varint.{varint, read_multi_of, read_proto_of, IsWithin};

/// What a reader of varints found at the prefix of some bytes.
#[derive(Clone, Copy, Debug, PartialEq, Eq)]
pub enum Var {
    /// A number, and how many bytes spell it.
    Value(u64, usize),
    /// The bytes end inside the number.
    Short,
    /// No number is spelled so.
    Bad,
}

/// Reads the number at the start where its spelling is the shortest one and has at most nine bytes (multiformats
/// unsigned-varint). Bytes may follow it.
pub fn read_multi(bytes: &[u8]) -> Var
    ensures exact { result ≡ read_multi_of bytes.now }
    ensures within { IsWithin result (length bytes.now) }
{
    let mut value = 0u64;
    let mut scale = 1u64;
    for i in 0..8 {
        if i >= bytes.len() {
            return Var::Short;
        }
        let byte = bytes[i] as u64;
        if byte < 128 {
            if byte == 0 && i > 0 {
                return Var::Bad;
            }
            return Var::Value(value + byte * scale, i + 1);
        }
        value += (byte - 128) * scale;
        scale *= 128;
    }
    if bytes.len() < 9 {
        return Var::Short;
    }
    let byte = bytes[8] as u64;
    if byte == 0 || byte >= 128 {
        return Var::Bad;
    }
    Var::Value(value + byte * scale, 9)
}

/// Reads the number at the start in any spelling of at most ten bytes, of which the tenth is 0 or 1 (Protocol Buffers,
/// "Base 128 Varints"). Bytes may follow it.
pub fn read_proto(bytes: &[u8]) -> Var
    ensures exact { result ≡ read_proto_of bytes.now }
    ensures within { IsWithin result (length bytes.now) }
{
    let mut value = 0u64;
    let mut scale = 1u64;
    for i in 0..9 {
        if i >= bytes.len() {
            return Var::Short;
        }
        let byte = bytes[i] as u64;
        if byte < 128 {
            return Var::Value(value + byte * scale, i + 1);
        }
        value += (byte - 128) * scale;
        scale *= 128;
    }
    if bytes.len() < 10 {
        return Var::Short;
    }
    let byte = bytes[9] as u64;
    if byte > 1 {
        return Var::Bad;
    }
    Var::Value(value + byte * scale, 10)
}

/// Writes the shortest spelling of a number at the start, leaves the bytes after it, and answers its length.
pub fn write(value: u64, out: &mut [u8; 10]) -> usize
    ensures spelled { out.new ≡ varint value ++ drop result out.old }
    ensures len { result ≡ length (varint value) }
{
    put(value, out)
}

/// The length of the shortest spelling of a number.
pub fn width(value: u64) -> usize
    ensures exact { result ≡ length (varint value) }
    ensures most { result ≤ 10 }
{
    let mut left = value;
    for i in 0..9 {
        if left < 128 {
            return i + 1;
        }
        left /= 128;
    }
    10
}

// Writes the shortest spelling of a number at the start, and answers its length.
pub fn put(value: u64, out: &mut [u8]) -> usize
    requires { 10 ≤ length out.old }
    ensures spelled { out.new ≡ varint value ++ drop result out.old }
    ensures len { result ≡ length (varint value) }
{
    let mut rest = value;
    for i in 0..9 {
        if rest < 128 {
            out[i] = rest as u8;
            return i + 1;
        }
        out[i] = 128 + (rest % 128) as u8;
        rest /= 128;
    }
    out[9] = rest as u8;
    10
}
