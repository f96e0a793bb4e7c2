//! Parts at the end of a text. After an error the text may hold some of what was to be put.

ghost use Rattle.std.specs.Prelude.{◌≡◌, ◌++◌, map, OnOk};
ghost use Rattle.std.specs.List.{concat};

use out_of_memory::OutOfMemory;
use syntax_tree::Text;

/// Puts these bytes at the end of a text, part by part.
pub fn add_parts(text: &mut Text, parts: &[&[u8]]) -> Result<(), OutOfMemory>
    ensures { OnOk result (text.new ≡ text.old ++ concat (map (λ part. part.now) parts.now)) }
{
    for part in parts {
        let bytes = *part;
        text.extend(bytes)?;
    }
    Ok(())
}
