ghost use Rattle.std.specs.Prelude.{◌≡◌};
// Why a question is refused: the numbers that C is told, each by name.

// Each has its number.
#[derive(Clone, Copy, Debug, PartialEq, Eq)]
pub enum Refusal {
    // The value is too long.
    ValueTooLong = 1,
    // The value is not of the form of the field.
    ValueMisfit = 2,
    // The value has too many entries.
    TooManyEntries = 3,
    // The table is too long.
    TableTooLong = 4,
    // The table stops early, or goes on after its last signal.
    TableWrongEnd = 5,
    // A count or a length of the table is out of range.
    TableOutOfRange = 6,
    // A name or a URN of the table is of wrong form.
    TableBadForm = 7,
    // A category stands twice or is not used, or a URN names one that is not there.
    TableBadCategory = 8,
    // A signal has two URNs of one category.
    TableTwoOfCategory = 9,
    // Signal 0 has a URN.
    TableBadDefault = 10,
    // Two signals have the same places.
    TableSamePlaces = 11,
    // The table has too many nodes.
    TableTooManyNodes = 12,
    // The machine would have too many states.
    TooManyStates = 13,
    // The image does not fit the buffer.
    ImageNoRoom = 14,
    // The image is not of the form for the table.
    ImageBadForm = 15,
    // State 0 of the image is not the start.
    ImageWrongStart = 16,
    // A target of the image is a state with another signal or other statuses than are due.
    ImageWrongTarget = 17,
    // The value has no such entry.
    NoEntry = 18,
    // The message has too many values.
    TooManyValues = 19,
    // The tally cannot take the answer.
    NotCounted = 20,
    // The nodes of a tree are not those of its signals in their order, or a number leads nowhere.
    BadTree = 21,
    // The other form of the table does not fit the buffer, or is too long for a table.
    FormNoRoom = 22,
    // The set of available signals has one that the table lacks.
    UnknownAvailable = 23,
    // The tables of rings and lamps have a category in common.
    SharedCategory = 24,
    // The log is too long, stops early or goes on after its last call.
    BadLog = 25,
    // The buffer for a sample is too short.
    SampleNoRoom = 26,
    // The classes do not fit the machine in the image.
    BadClasses = 27,
    // The record does not belong to the table.
    BadRecord = 28,
    // The table has no such node.
    UnknownNode = 30,
    // The table has no such signal.
    UnknownSignal = 31,
}

impl From<Refusal> for u8 {
    ghost use Rattle.base_numbers.specs.Refusals.{refusal_number};

    ghost from_gives = { λ r n. n ≡ refusal_number r };

    #[tactic(auto, unfolding(crate::specs::Refusals::refusal_number))]
    fn from(refusal: Refusal) -> u8 {
        refusal as u8
    }
}
