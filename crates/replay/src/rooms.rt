// Room that the programs lend.
// Stays: an array of a fixed length, since a program has fixed memory and no heap.
ghost use Rattle.std.specs.Prelude.{◌≡◌, length};

// For 4,096 open brackets, or ends.
pub fn stack_words() -> [u64; 4096]
    ensures { 4096 ≡ length result }
{
    [0; 4096]
}
