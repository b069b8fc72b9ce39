// Numbers as text, and the text that the program prints, written into a lent row. What does not fit in the row is not stored, and is counted all the same.
#![tactic(auto)]

ghost use Rattle.std.specs.Prelude.{◌≡◌, List, ℕ, [], ◌∷◌, ◌+◌, ◌*◌, ◌^◌, ◌<◌, ◌≤◌, max, length, replicate};
ghost use Rattle.std.proofs.lemmas.List.Edits.{sets};
ghost use Rattle.show.specs.Show.{space, right_aligned, field, line, lines_of, planned};
ghost use Rattle.show.specs.Adds.{Adds, Numbers};

// A number in decimal, from `at` on, with spaces before it up to `width` characters. The answer is how many characters these are: `width`, or more
// where there are more digits.
pub fn put_right(out: &mut [u8], at: usize, width: usize, n: u64) -> usize
    ensures out_after { out.new ≡ sets out.old at (right_aligned width n) }
    ensures value { result ≡ length (right_aligned width n) }
    ensures upper_bound { result ≤ width + 20 }
{
    let mut text = [0u8; 20];
    let k = io::decimal(n, &mut text);
    let pad = width.saturating_sub(k);
    octets::fill(pad, b' ', out, at);
    if octets::has_room(out.len(), at, pad) {
        octets::copy(k, &text[..k], 0, out, at + pad);
    }
    pad + k
}

// A lent row, and the place after the text that is stored there so far: the next part begins at that place. A place past what 64 bits hold is the
// highest that they do, and nothing more is promised of the text then.
#[derive(Drop)]
pub struct Text<'a> {
    pub out: &'a mut [u8],
    pub end: usize,
}

impl Text<'_> {
    // One byte.
    pub fn put_byte(&mut self, b: u8)
        ensures adds { self.old.end + 1 < 2 ^ 64 → Adds self.old (b ∷ []) self.new }
        ensures upper_bound { self.new.end ≤ self.old.end + 1 }
    {
        octets::put_le(1, u64::from(b), self.out, self.end);
        self.end = self.end.saturating_add(1);
    }

    // Spaces.
    pub fn put_spaces(&mut self, count: usize)
        ensures adds { self.old.end + count < 2 ^ 64 → Adds self.old (replicate count space) self.new }
        ensures upper_bound { self.new.end ≤ self.old.end + count }
    {
        octets::fill(count, b' ', self.out, self.end);
        self.end = self.end.saturating_add(count);
    }

    // A number in decimal, with spaces before it up to `width` characters.
    pub fn put_right(&mut self, width: usize, n: u64)
        ensures adds { self.old.end + (width + 20) < 2 ^ 64 → Adds self.old (right_aligned width n) self.new }
        ensures upper_bound { self.new.end ≤ self.old.end + (width + 20) }
    {
        let stored = put_right(self.out, self.end, width, n);
        self.end = self.end.saturating_add(stored);
    }

    // A number in decimal and a byte after it.
    fn put_field(&mut self, n: u64, after: u8)
        requires { self.old.end < 2 ^ 32 }
        ensures adds { Adds self.old (field n after) self.new }
        ensures upper_bound { self.new.end ≤ self.old.end + 21 }
    {
        self.put_right(0, n);
        self.put_byte(after);
    }

    // Numbers, one space between; an empty line for none.
    fn put_line<T: Copy + Into<u64>>(&mut self, numbers: &[T])
        requires { (self.old.end < 2 ^ 20) × (length numbers.now ≤ 256) }
        ensures adds { (ns : List ℕ) × Numbers T.converts numbers.now ns × Adds self.old (line ns) self.new }
        ensures upper_bound { self.new.end ≤ self.old.end + max (21 * length numbers.now) 1 }
    {
        let Some((last, others)) = numbers.split_last() else {
            self.put_byte(b'\n');
            return;
        };
        for n in others {
            self.put_field((*n).into(), b' ');
        }
        self.put_field((*last).into(), b'\n');
    }
}

// The program's lines at the start of `out`. The answer is their length.
pub fn lines(out: &mut [u8], code: u64, place: u64, commands: u64, legs: u64, plan: &[u8]) -> usize
    ensures out_after { out.new ≡ sets out.old 0 (lines_of code place commands legs (planned commands plan.now)) }
    ensures value { result ≡ length (lines_of code place commands legs (planned commands plan.now)) }
    ensures upper_bound { result ≤ 5461 }
{
    let mut text = Text { out, end: 0 };
    text.put_line(&[code, place, commands, legs]);
    if code != 0 {
        return text.end;
    }
    let n = (commands as usize).min(plan.len().min(256));
    text.put_line(&plan[..n]);
    text.end
}
