// Of what tracks are made, as their record says it.

use range_plane::OutOfMemory;
use split_record::ExportRead;
use std::alloc::Global;

/// The name at the end of a path.
pub(crate) fn name_of(path: &str) -> &str {
    match path.rsplit_once('/') {
        Some((_, name)) => name,
        None => path,
    }
}

/// The exports that were read, whose bytes have these checksums.
///
/// # Errors
///
/// Memory ran out.
pub(crate) fn all_read<'a>(
    alloc: Global,
    paths: &[&'a str],
    sums: &[[u8; 64]],
) -> Result<Vec<ExportRead<'a>>, OutOfMemory> {
    let mut read = Vec::new(alloc);
    for (path, sum) in paths.iter().zip(sums) {
        read.push(ExportRead {
            name: name_of(path).as_bytes(),
            sum: *sum,
        })?;
    }
    Ok(read)
}
