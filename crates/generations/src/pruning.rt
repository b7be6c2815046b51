// The removal of the generations that no run reads any more.
ghost use Rattle.std.specs.Prelude.{◌≡◌, List, [], true, IfOk, IfErr};
ghost use Rattle.cas_outside.specs.Folder.{Calm, HasName};
ghost use Rattle.generations.specs.GenerationNames.{generation_name};
ghost use Rattle.generations.specs.Pruning.{Prunes};
ghost use Rattle.generations.specs.Removing.{AreBelowUpstream, AreToldUnused, HasRemoved, ListFails, Removes, StopsRemoving};

use crate::chain::Chain;
use crate::generation_names::name_of;
use crate::saving::SaveError;
use cas_outside::{Folder, Name};
use std::alloc::{AllocError, Global};

/// Removes all generations but the primary and the upstream, the lowest first, and answers how many there were. Where
/// there were none, nothing is asked of the folder but its names.
///
/// After an error some of them may be gone, and `FolderFault` comes only where the folder's count of faults rose. The
/// primary, the upstream and all files that are no generations are as before, whatever the answer.
pub fn prune<F: Folder>(alloc: Global, folder: &mut F) -> Result<u64, SaveError>
    requires { (F.view folder.old).locked ≡ true }
    ensures { Prunes (F.view folder.old) (F.view folder.new) result }
{
    let unused = unused_of(alloc, folder)?;
    remove_all(alloc, folder, unused.as_slice())?;
    Ok(unused.len() as u64)
}

// The numbers of the generations that are neither the primary nor the upstream, the lowest first.
fn unused_of<F: Folder>(alloc: Global, folder: &mut F) -> Result<Vec<u32>, SaveError>
    requires { (F.view folder.old).locked ≡ true }
    ensures ok { IfOk result (λ numbers. AreToldUnused (F.view folder.old).files numbers.items) }
    ensures err { IfErr result (λ error. ListFails (F.view folder.old) (F.view folder.new) error) }
    ensures calm { Calm (F.view folder.old) (F.view folder.new) }
{
    let names = folder.names()?;
    Ok(unused_among(alloc, names.as_slice())?)
}

// The same of the files with these names.
fn unused_among(alloc: Global, names: &[Name]) -> Result<Vec<u32>, AllocError>
    ensures { IfOk result (λ numbers. AreBelowUpstream names.now numbers.items) }
{
    let chain = Chain::of(names);
    let mut numbers = Vec::new(alloc);
    for name in names {
        if let Some(number) = chain.unused(name.list()) {
            numbers.push(number)?;
        }
    }
    numbers.sort_unstable();
    Ok(numbers)
}

// Removes the generations with these numbers, which are those of all unused ones, in this order.
fn remove_all<F: Folder>(alloc: Global, folder: &mut F, numbers: &[u32]) -> Result<(), SaveError>
    requires locked { (F.view folder.old).locked ≡ true }
    requires unused { AreToldUnused (F.view folder.old).files numbers.now }
    ensures ok { IfOk result (λ _. HasRemoved numbers.now (F.view folder.old) (F.view folder.new)) }
    ensures none { numbers.now ≡ [] → (F.view folder.new).changes ≡ (F.view folder.old).changes }
    ensures err { IfErr result (λ error. StopsRemoving numbers.now (F.view folder.old) (F.view folder.new) error) }
{
    for number in numbers {
        remove_one(alloc, folder, *number)?;
    }
    Ok(())
}

// Removes the file of a generation that is there.
fn remove_one<F: Folder>(alloc: Global, folder: &mut F, number: u32) -> Result<(), SaveError>
    requires locked { (F.view folder.old).locked ≡ true }
    requires there { HasName (F.view folder.old).files (generation_name number) }
    ensures { Removes (generation_name number) (F.view folder.old) (F.view folder.new) result }
{
    let name = name_of(alloc, number)?;
    folder.remove(&name)?;
    Ok(())
}
