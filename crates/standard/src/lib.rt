// The standard scheme and the session's log, as bytes (document 01, "Standard scheme and a session").

#![tactic(auto)]

ghost use Rattle.std.specs.Prelude.{◌≡◌, ◌≤◌, length, ◌++◌, drop};
ghost use Rattle.model.specs.Standard.{standard_bytes};
ghost use Rattle.model.specs.Session.{session_log};
ghost use Rattle.standard.specs.Written.{Written};

// The standard scheme for n members.
fn scheme_bytes(n: usize) -> [u8; 150]
    requires { n ≤ 256 }
    ensures { result ≡ standard_bytes n }
{
    let mut bytes = *b"\
        \x06\x00\x01\x00\x00\x00\x04\x04\x03\x0d\
        \x20\x00\x02\x00\x02\xff\xff\xff\x01\xff\xff\xff\
        \xff\x03\x00\xff\xff\xff\xff\xff\
        \xff\xff\xff\xff\xff\x03\x00\xff\
        \xff\xff\xff\x00\xff\xff\xff\x00\
        \x04\x00\x03\x00\x00\x00\x00\x01\
        \x34\x00\x04\x00\x00\x00\x00\x00\
        \x02\x00\x00\x00\
        \x03\x01\x00\x00\
        \x03\x02\x00\x00\
        \x01\x00\x00\x00\
        \x06\x01\x04\x00\
        \x06\x02\x02\x00\
        \x08\x00\x05\x06\
        \x08\x00\x00\x07\
        \x08\x00\x01\x07\
        \x08\x00\x02\x07\
        \x08\x00\x03\x07\
        \x08\x00\x04\x07\
        \x24\x00\x05\x00\x00\x1f\x00\x00\
        \x1f\x00\x00\x00\
        \x19\x00\x00\x00\
        \x10\x00\x00\x00\
        \x10\x00\x00\x00\
        \x10\x00\x00\x00\
        \x00\x1f\x00\x00\
        \x1f\x00\x00\x00\
        \x1f\x00\x00\x00";
    let [low, high] = (n as u16).to_le_bytes();
    bytes[4] = low;
    bytes[5] = high;
    bytes
}

// The log of the session's sixteen requests.
fn session_bytes() -> [u8; 139]
    ensures { result ≡ session_log }
{
    *b"\
        \x05\x00\x10\x00\x00\x00\x01\x00\x00\
        \x04\x00\x11\x00\x01\x00\x00\x0c\
        \x05\x00\x10\x00\x00\x00\x01\x00\x00\
        \x04\x00\x11\x00\x01\x00\x02\x04\
        \x05\x00\x10\x00\x00\x00\x01\x00\x00\
        \x05\x00\x10\x00\x00\x00\x01\x00\x01\
        \x05\x00\x10\x00\x01\x00\x00\x00\x01\
        \x05\x00\x14\x00\x01\x00\x00\x00\x01\
        \x04\x00\x11\x00\x00\x00\x07\x02\
        \x05\x00\x14\x00\x01\x00\x00\x00\x01\
        \x05\x00\x14\x00\x02\x00\x00\x00\x01\
        \x04\x00\x11\x00\x01\x00\x01\x04\
        \x04\x00\x13\x00\x02\x00\x01\x00\
        \x05\x00\x14\x00\x02\x00\x00\x00\x01\
        \x05\x00\x10\x00\x01\x00\x00\x00\x03\
        \x05\x00\x14\x00\x02\x00\x00\x00\x01"
}

// Puts bytes at the front of the output.
fn put(bytes: &[u8], output: &mut [u8])
    requires { length bytes.now ≤ length output.old }
    ensures { output.new ≡ bytes.now ++ drop (length bytes.now) output.old }
{
    output[..bytes.len()].copy_from_slice(bytes);
}

// Writes the standard scheme for n members at the front of the output. Writes nothing, and says so, for n = 0, for n above
// 256, and where the output is shorter than the scheme.
pub fn scheme(n: usize, output: &mut [u8]) -> bool
    ensures { Written ((1 ≤ n) × (n ≤ 256)) (standard_bytes n) output.old result output.new }
{
    if n < 1 {
        return false;
    }
    if n > 256 {
        return false;
    }
    if output.len() < 150 {
        return false;
    }
    let bytes = scheme_bytes(n);
    put(&bytes, output);
    true
}

// Writes the session's log at the front of the output. Writes nothing, and says so, where the output is shorter than the log.
pub fn session(output: &mut [u8]) -> bool
    ensures { Written (Unit {0}) session_log output.old result output.new }
{
    if output.len() < 139 {
        return false;
    }
    let bytes = session_bytes();
    put(&bytes, output);
    true
}
