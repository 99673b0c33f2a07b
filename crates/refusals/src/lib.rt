// The refusals, each with its number in documents 01 and 02.
#![tactic(auto)]

ghost use Rattle.std.specs.Prelude.{◌≡◌};
ghost use Rattle.refusals.specs.Refusals.{number_of};

// Document 01, "Turned down for the input" and "Turned down for the state", and 02, No. 7. Refusals 7 and 25 are withdrawn.
#[derive(Clone, Copy, Debug, PartialEq, Eq)]
pub enum Refusal {
    // 1: a header, need, link or frame line is missing or not of its length.
    Line,
    // 2: a byte in it is no digit.
    Digit,
    // 3: no probe, or too many probes or links.
    Size,
    // 4: low not below high, or high not below the probe count.
    Ends,
    // 5: a link not after the one before it.
    Order,
    // 6: the closing line is absent, different, or followed by bytes.
    Closing,
    // 8: a lent slice too short, or low, high and cost slices of unequal length.
    Slice,
    // 9: a frame kind with no meaning.
    Kind,
    // 20: a record of the wrong length.
    RecordLength,
    // 21: a byte or bit of a record that no record has there.
    RecordByte,
    // 22: a probe with more standing or more held than its spare.
    OverSpare,
    // 23: a frame of another table number.
    OtherTable,
    // 24: no such probe or link, or a frame for another probe.
    NotThere,
    // 26: the log is full.
    LogFull,
    // 27: a frame that was never sent.
    NeverSent,
    // 32: a bag of too many frames.
    BagSize,
}

impl Refusal {
    pub fn number(self) -> u8
        ensures { result ≡ number_of self }
    {
        match self {
            Refusal::Line => 1,
            Refusal::Digit => 2,
            Refusal::Size => 3,
            Refusal::Ends => 4,
            Refusal::Order => 5,
            Refusal::Closing => 6,
            Refusal::Slice => 8,
            Refusal::Kind => 9,
            Refusal::RecordLength => 20,
            Refusal::RecordByte => 21,
            Refusal::OverSpare => 22,
            Refusal::OtherTable => 23,
            Refusal::NotThere => 24,
            Refusal::LogFull => 26,
            Refusal::NeverSent => 27,
            Refusal::BagSize => 32,
        }
    }
}
