// Why a call is refused. The number of each refusal is that of the documents, which C and the texts tell.
#![tactic(auto)]

ghost use Rattle.std.specs.Prelude.{◌≡◌};
ghost use Rattle.refusals.specs.Refusals.{number_in, number_of, number_or_zero};

#[derive(Clone, Copy, Debug, PartialEq, Eq)]
pub enum Refusal {
    // Of a buffer that is lent for a packet or a text, then of the bytes of a packet.
    ShortBuffer = 1,
    WrongLength = 2,
    WrongMark = 3,
    WrongChecksum = 4,
    WrongHeader = 5,
    WrongPasswordSize = 6,
    // Of what a packet asks.
    OtherId = 7,
    OtherPassword = 8,
    NoFunction = 9,
    MalformedBlock = 10,
    DiscoveryWrites = 11,
    LongResponse = 12,
    // Of a set-up. The tool refuses a password by the same one.
    BadId = 20,
    BadPassword = 21,
    BadMode = 22,
    BadUnitType = 23,
    // Of a measurement.
    NotMeasured = 30,
    MeasuredLength = 31,
    // Of what the tool is given: the ID that it expects, and the commands of a request.
    ExpectedId = 40,
    CommandList = 41,
    NotEncodable = 42,
    LongRequest = 43,
    // Of a capture, and of the room for one or for a table.
    CaptureMark = 50,
    UnknownVersion = 51,
    WrongBoards = 52,
    WrongRecord = 53,
    NoSpace = 54,
    // Of a table.
    TableHeader = 60,
    BadLine = 61,
    FieldCount = 62,
    BadField = 63,
    // Of the record of a board.
    BadRecord = 70,
}

impl Refusal {
    pub fn number(self) -> u8
        ensures { result ≡ number_of self }
    {
        self as u8
    }
}

// The number of an answer that may be refused, or 0.
pub fn number_in<T: Copy>(answer: Result<T, Refusal>) -> u8
    ensures { result ≡ number_in answer }
{
    match answer {
        Ok(_) => 0,
        Err(refusal) => refusal.number(),
    }
}

// The number of a refusal, or 0 where there is none.
pub fn number_or_zero(refusal: Option<Refusal>) -> u8
    ensures { result ≡ number_or_zero refusal }
{
    refusal.map_or(0, Refusal::number)
}
