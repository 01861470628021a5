// White space between the parts of a JSON text.
ghost use Rattle.std.specs.Prelude.{◌≡◌};
ghost use Rattle.classes.specs.Classes.{class_table};
ghost use Rattle.jsontext.specs.Spaces.{space_end};

use classes::is_space;

// The highest byte that is a space. Most bytes asked of are above it, and need no look into the table.
const BLANK: u8 = 32;

// The first place from one on where no space stands.
pub fn space_end(text: &[u8], classes: &[u8; 256], at: usize) -> usize
    ensures { classes.now ≡ class_table → result ≡ space_end text.now at }
{
    for i in at..text.len() {
        let b = text[i];
        if b > BLANK {
            return i;
        }
        if !is_space(classes, b) {
            return i;
        }
    }
    at.max(text.len())
}
