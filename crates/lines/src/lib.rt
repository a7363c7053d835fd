// Lines of the log program in a lent buffer (document 01, "Log program").

#![tactic(auto)]

ghost use Rattle.std.specs.Prelude.{◌≡◌, ◌+◌, ◌-◌, ◌*◌, ◌≤◌, length, take, [], ◌∷◌};
ghost use Rattle.model.specs.Text.{decimal, spaced, line_of};
ghost use Rattle.lines.specs.Put.{Puts, longest};

// The log program's text at the front of a lent buffer.
#[derive(Drop)]
pub struct Text<'a> {
    pub buffer: &'a mut [u8],
    pub used: usize,
}

impl<'a> Text<'a> {
    // Before anything is put.
    pub fn new(buffer: &'a mut [u8]) -> Text<'a>
        ensures empty { result.used ≡ 0 }
        ensures lent { result.buffer.now ≡ buffer.old }
        ensures same_reference { result.buffer.ghost_name ≡ buffer.entry.ghost_name }
    {
        Text { buffer, used: 0 }
    }

    // What was put.
    pub fn as_bytes(&self) -> &[u8]
        requires { self.now.used ≤ length self.now.buffer.now }
        ensures { result.now ≡ take self.now.used self.now.buffer.now }
    {
        &self.buffer[..self.used]
    }

    // How many bytes are free.
    pub fn room(&self) -> usize
        ensures { result ≡ length self.now.buffer.now - self.now.used }
    {
        self.buffer.len().saturating_sub(self.used)
    }

    fn push(&mut self, byte: u8)
        requires { self.old.used + 1 ≤ length self.old.buffer.now }
        ensures { Puts self.old (byte ∷ []) self.new × (self.new.used ≡ self.old.used + 1) }
    {
        self.buffer[self.used] = byte;
        self.used += 1;
    }

    fn extend(&mut self, bytes: &[u8])
        requires { self.old.used + length bytes.now ≤ length self.old.buffer.now }
        ensures { Puts self.old bytes.now self.new × (self.new.used ≡ self.old.used + length bytes.now) }
    {
        for byte in bytes {
            self.push(*byte);
        }
    }

    // A number in decimal.
    fn number(&mut self, n: u16)
        requires { self.old.used + 5 ≤ length self.old.buffer.now }
        ensures { Puts self.old (decimal n) self.new × (self.new.used ≤ self.old.used + 5) }
    {
        let mut digits = [0u8; 20];
        let k = io::decimal(u64::from(n), &mut digits);
        self.extend(&digits[..k]);
    }

    // A number after a space.
    fn spaced_number(&mut self, n: u16)
        requires { self.old.used + 6 ≤ length self.old.buffer.now }
        ensures { Puts self.old (32 ∷ decimal n) self.new × (self.new.used ≤ self.old.used + 6) }
    {
        self.push(b' ');
        self.number(n);
    }

    // Each number after a space.
    fn list(&mut self, numbers: &[u16])
        requires { self.old.used + 6 * length numbers.now ≤ length self.old.buffer.now }
        ensures { Puts self.old (spaced numbers.now) self.new × (self.new.used ≤ self.old.used + 6 * length numbers.now) }
    {
        for number in numbers {
            self.spaced_number(*number);
        }
    }

    // A record's line.
    pub fn line(&mut self, position: u16, answer: u8, friends: &[u16])
        requires { self.old.used + longest (length friends.now) ≤ length self.old.buffer.now }
        ensures { Puts self.old (line_of position answer friends.now) self.new × (self.new.used ≤ self.old.used + longest (length friends.now)) }
    {
        self.number(position);
        self.spaced_number(u16::from(answer));
        self.list(friends);
        self.push(b'\n');
    }
}
