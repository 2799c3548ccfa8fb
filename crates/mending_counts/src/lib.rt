// How many bytes of a text are a letter.
#![tactic(auto)]

ghost use Rattle.std.specs.Prelude.{◌≡◌, ◌≤◌, length};
ghost use Rattle.mending_counts.specs.Occurrences.{occurs};

// So few bytes are counted in a byte, which is quicker: the compiler then takes sixteen at a time.
const PART: usize = 240;

// How many bytes are this letter, part by part.
pub fn count_of(text: &[u8], letter: u8) -> usize
    ensures { result ≡ occurs letter text.now }
{
    let (parts, rest) = text.as_chunks::<PART>();
    let mut count = 0;
    for part in parts {
        count += usize::from(count_few(part, letter));
    }
    count + usize::from(count_few(rest, letter))
}

fn count_few(part: &[u8], letter: u8) -> u8
    requires { length part.now ≤ 240 }
    ensures { result ≡ occurs letter part.now }
{
    let mut count = 0;
    for x in part {
        if *x == letter {
            count += 1;
        }
    }
    count
}
