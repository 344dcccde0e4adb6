// The animals by the names of their files.

ghost use Rattle.std.specs.Prelude.{◌≡◌, ◌<◌, All, IfOk, length, map};
ghost use Rattle.split_output.specs.Left.{AreByName};

use range_plane::OutOfMemory;
use split_chain::Split;
use std::alloc::Global;

/// The names of files with the numbers of their animals, of which there are so many, in the order of names.
///
/// # Errors
///
/// Memory ran out.
pub(crate) fn by_name<'a>(
    alloc: Global,
    split: &'a Split,
    animals: u32,
) -> Result<Vec<(&'a [u8], u32)>, OutOfMemory>
    requires { animals ≡ length split.now.files.items }
    ensures within { IfOk result (λ ranked. All (λ one. one.1 < animals) ranked.items) }
    ensures order { IfOk result (λ ranked. AreByName (map (λ file. file.name.items) split.now.files.items)
        (map (λ one. (one.1, one.0.now)) ranked.items)) }
{
    let mut ranked: Vec<(&[u8], u32)> = Vec::new(alloc);
    for animal in 0..animals {
        ranked.push((split.files[animal as usize].name.as_slice(), animal))?;
    }
    ranked.sort()?;
    Ok(ranked)
}
