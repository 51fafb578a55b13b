// The head of a circuit with its words. A length that its buffer does not hold is taken for the buffer's own, so that nothing
// more has to be shown of it; `is_held` says whether there is one.
ghost use Rattle.std.specs.Prelude.{◌≤◌};

use crate::input::FromBytes;

// The bytes of a head.
#[derive(Clone, Copy)]
pub struct Head(pub [u8; 24]);

impl Head {
    // Whether the buffers hold the case.
    pub(crate) fn is_held(self) -> bool {
        self.length_at(4) <= 400
            && self.length_at(6) <= 2100
            && self.length_at(8) <= 2100
            && self.length_at(10) <= 16400
            && self.length_at(12) <= 2100
            && self.file_number() <= 70000
            && self.0[18] <= 80
            && self.length_at(19) <= 400
            && self.0[21] <= 80
            && self.length_at(22) <= 400
    }

    // The two-byte number at a place, as a length.
    fn length_at(self, at: usize) -> usize {
        usize::from(numbers::number_at(&self.0, at))
    }

    fn file_number(self) -> usize {
        u32::at_byte(&self.0, 0) as usize
    }

    pub fn file_length(self) -> usize
        ensures { result ≤ 70000 }
    {
        self.file_number().min(70000)
    }

    pub fn directory_length(self) -> usize
        ensures { result ≤ 400 }
    {
        self.length_at(4).min(400)
    }

    pub fn times_length(self) -> usize
        ensures { result ≤ 2100 }
    {
        self.length_at(6).min(2100)
    }

    pub fn inertial_length(self) -> usize
        ensures { result ≤ 2100 }
    {
        self.length_at(8).min(2100)
    }

    pub fn fanins_length(self) -> usize
        ensures { result ≤ 16400 }
    {
        self.length_at(10).min(16400)
    }

    pub fn values_length(self) -> usize
        ensures { result ≤ 2100 }
    {
        self.length_at(12).min(2100)
    }

    pub fn rubbish(self) -> u16 {
        numbers::number_at(&self.0, 14)
    }

    // The caller's limit on the frame total, any number of two bytes.
    pub fn limit(self) -> u16 {
        numbers::number_at(&self.0, 16)
    }

    pub fn counts_length(self) -> usize
        ensures { result ≤ 80 }
    {
        usize::from(self.0[18]).min(80)
    }

    pub fn changes_length(self) -> usize
        ensures { result ≤ 400 }
    {
        self.length_at(19).min(400)
    }

    pub fn before_length(self) -> usize
        ensures { result ≤ 80 }
    {
        usize::from(self.0[21]).min(80)
    }

    pub fn after_length(self) -> usize
        ensures { result ≤ 400 }
    {
        self.length_at(22).min(400)
    }
}
