// Texts that are put piece by piece into lent bytes, and numbers as ASCII. What the bytes have no room for is left out, and still counts.
#![tactic(auto)]

ghost use Rattle.std.specs.Prelude.{◌≡◌, [], ◌∷◌, ◌/◌, ◌%◌, ◌<◌, ◌≤◌, length, drop};
ghost use Rattle.calendar.specs.Calendar.{digit as digit_of};
ghost use Rattle.texts.specs.Texts.{Writes};
ghost use Rattle.texts.specs.Numerals.{decimal, hex_digit};

// A text that is put piece by piece from the start of the bytes. `end` is the place after it, and counts what was left out as well.
#[derive(Drop)]
pub struct Text<'a> {
    bytes: &'a mut [u8],
    end: usize,
}

// `calendar` has the same of a u32: called here it would need `n % 10` made narrower, and a law that the digit is the same.
pub fn digit(n: u64) -> u8
    ensures { result ≡ digit_of n }
{
    (48 + n % 10) as u8
}

// A number's digits, laid from the back; the place of the first. By hand: `write!` promises its text only where it answers Ok, and the kit's
// `itoa` would be one more crate to trust.
#[tactic(auto, using(crate::proofs::Laid::laid_none, crate::proofs::Laid::laid_all))]
fn lay_digits(digits: &mut [u8; 20], n: u64) -> usize
    ensures in_range { result ≤ 20 }
    ensures value { drop result digits.new ≡ decimal n }
{
    let mut rest = n;
    let mut at = 20;
    while rest >= 10 {
        at -= 1;
        digits[at] = digit(rest);
        rest /= 10;
    }
    at -= 1;
    digits[at] = digit(rest);
    at
}

// By hand, as `lay_digits` and for its reason.
#[tactic(auto, unfolding(fields::specs::Lists::pick))]
fn hex_digit(n: u8) -> u8
    requires { n < 16 }
    ensures { result ≡ hex_digit n }
{
    if n < 10 { 48 + n } else { 87 + n }
}

// A byte as two digits, the high half first.
pub fn hex_digits(b: u8) -> [u8; 2]
    ensures { result ≡ hex_digit (b / 16) ∷ hex_digit (b % 16) ∷ [] }
{
    [hex_digit(b / 16), hex_digit(b % 16)]
}

impl<'a> Text<'a> {
    pub fn new(bytes: &'a mut [u8]) -> Text<'a>
        ensures same_reference { result.bytes.ghost_name ≡ bytes.entry.ghost_name }
        ensures bytes { result.bytes.now ≡ bytes.old }
        ensures end { result.end ≡ 0 }
    {
        Text { bytes, end: 0 }
    }

    pub fn end(&self) -> usize
        ensures { result ≡ self.now.end }
    {
        self.end
    }

    pub fn put(&mut self, word: &[u8])
        ensures { Writes (length word.now) self.old word.now self.new }
    {
        fields::put_bytes(self.bytes, self.end, word);
        self.end = self.end.saturating_add(word.len());
    }

    #[tactic(auto, using(crate::proofs::Texts::one_digit, crate::proofs::Texts::all_digits))]
    pub fn put_decimal(&mut self, n: u64)
        ensures { Writes 20 self.old (decimal n) self.new }
    {
        if n < 10 {
            self.put(&[digit(n)]);
        } else {
            let mut digits = [0u8; 20];
            let first = lay_digits(&mut digits, n);
            self.put(&digits[first..]);
        }
    }

    // A byte as two digits, the high half first.
    pub fn put_hex(&mut self, b: u8)
        ensures { Writes 2 self.old (hex_digit (b / 16) ∷ hex_digit (b % 16) ∷ []) self.new }
    {
        self.put(&hex_digits(b));
    }
}
