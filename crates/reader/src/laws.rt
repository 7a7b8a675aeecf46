// Laws of reading, each the contract of a small function.
ghost use Rattle.reader.specs.Laws.{OneAnswer, OneCall, AllFaithful, AllWritten};

// A file reads as one network, or is refused with one fault, and not both.
pub fn files_have_one_answer()
    ensures { OneAnswer }
{}

// A line behind `go` reads as one call, or is refused with one fault, or is none.
pub fn calls_have_one_answer()
    ensures { OneCall }
{}

// What a network says is what each of its rows says.
pub fn networks_say_their_rows()
    ensures { AllFaithful }
{}

// Every corridor that keeps the rules has a text that reads as it.
pub fn corridors_have_texts()
    ensures { AllWritten }
{}
