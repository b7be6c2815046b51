// The names of generations, and folders in memory that hold them.
ghost use Rattle.std.specs.Prelude.{◌≡◌, true, None, IfOk, OnOk};
ghost use Rattle.cas_model.specs.Contents.{AreLawfulContents};

use cas_model::{Contents, Data, Object, Refs};
use cas_outside::{Folder, FolderError, MemFolder};
use frozen_store::Frozen;
use generations::{
    OpenError, SaveError, name_of, needs_rotation, number_of, open_folder, prune, rotate,
};
use image_file::{ImageError, image_of};
use std::alloc::{AllocError, Global};
use std::test::Fail;

/// The size of the regions here, in words.
const SIZE: u64 = 4096;

const LAST: u32 = 4_294_967_295;

// The image of an empty region.
fn empty_image(alloc: Global) -> Result<Vec<u8>, AllocError> {
    image_of(alloc, &Frozen::empty(alloc, SIZE)?)
}

// Contents with one object.
fn hello(alloc: Global) -> Result<Contents, AllocError>
    ensures { IfOk result (λ contents. AreLawfulContents contents.objects.items contents.actions.items) }
{
    let object = Object {
        refs: Refs::of(alloc, &[])?,
        data: Data::of(alloc, b"hello")?,
    };
    Ok(Contents {
        objects: Vec::from_array(alloc, [object])?,
        actions: Vec::new(alloc),
    })
}

// The image of a region with one object.
fn hello_image(alloc: Global) -> Result<Vec<u8>, Fail> {
    let contents = hello(alloc)?;
    match Frozen::of_contents(alloc, &contents, SIZE) {
        Ok(frozen) => Ok(image_of(alloc, &frozen)?),
        Err(_) => Ok(Vec::new(alloc)),
    }
}

// A folder in memory, of whose calls these fail.
fn failing(alloc: Global, calls: &[u64]) -> Result<MemFolder, AllocError>
    ensures { IfOk result (λ folder. folder.asked ≡ None) }
{
    Ok(MemFolder::new(calls.to_vec(alloc)?, Vec::new(alloc)))
}

// Gives the generation with this number a file of these bytes, by no call.
fn set_generation(
    alloc: Global,
    folder: &mut MemFolder,
    number: u32,
    bytes: &[u8],
) -> Result<(), AllocError>
    requires { folder.old.asked ≡ None }
    ensures { OnOk result (folder.new.asked ≡ None) }
{
    folder.set_file(name_of(alloc, number)?.list(), bytes)
}

// Enters.
fn enter(folder: &mut MemFolder) -> Result<(), FolderError>
    requires { folder.old.asked ≡ None }
    ensures { OnOk result (folder.new.entered ≡ true) }
{
    folder.enter("store")
}

// Enters and locks.
fn lock(folder: &mut MemFolder) -> Result<(), FolderError>
    requires { folder.old.asked ≡ None }
    ensures { OnOk result (folder.new.locked ≡ true) }
{
    enter(folder)?;
    if folder.try_lock()? {
        Ok(())
    } else {
        Err(FolderError::Failed)
    }
}

// A folder that is locked, of whose calls these fail, with generations of these numbers.
fn locked_with(alloc: Global, numbers: &[u32], calls: &[u64]) -> Result<MemFolder, Fail>
    ensures { IfOk result (λ folder. folder.locked ≡ true) }
{
    let mut folder = failing(alloc, calls)?;
    for number in numbers {
        set_generation(alloc, &mut folder, *number, b"old")?;
    }
    lock(&mut folder)?;
    Ok(folder)
}

// Whether a file has these bytes.
fn has_bytes(folder: &MemFolder, name: &[u8], bytes: &[u8]) -> bool {
    folder.file(name).is_some_and(|file| file == bytes)
}

#[test]
fn names_have_numbers(rt: HostRuntime) -> Result<(), Fail> {
    let cases = [(1, "v1.1"), (10, "v1.10"), (LAST, "v1.4294967295")];
    for (number, name) in cases {
        assert_eq!(rt; name_of(rt.alloc(), number)?.list(), name.as_bytes());
        assert_eq!(rt; number_of(name.as_bytes()), Some(number));
    }
    Ok(())
}

#[test]
fn other_names_are_ignored(rt: HostRuntime) {
    let names = [
        "v1.0",
        "v1.01",
        "v2",
        "notes",
        "v1.",
        "v2.1",
        "v1.+1",
        "v1.4294967296",
        "v1.1.1",
    ];
    for name in names {
        assert_eq!(rt; number_of(name.as_bytes()), None);
    }
}

#[test]
fn the_two_highest_are_read(rt: HostRuntime) -> Result<(), Fail> {
    let alloc = rt.alloc();
    let mut folder = failing(alloc, &[])?;
    set_generation(alloc, &mut folder, 9, b"not read")?;
    set_generation(alloc, &mut folder, LAST, empty_image(alloc)?.as_slice())?;
    set_generation(alloc, &mut folder, 10, hello_image(alloc)?.as_slice())?;
    enter(&mut folder)?;
    let opened = open_folder(alloc, &mut folder, SIZE)?;
    assert_eq!(rt; (opened.number, opened.has_file), (LAST, true));
    assert_eq!(rt; opened.primary.counts().objects, 0);
    assert_eq!(rt; opened.up_number, 10);
    assert_eq!(rt; opened.up.map(|up| up.counts().objects), Some(1));
    Ok(())
}

#[test]
fn one_generation_has_no_upstream(rt: HostRuntime) -> Result<(), Fail> {
    let alloc = rt.alloc();
    let mut folder = failing(alloc, &[])?;
    set_generation(alloc, &mut folder, 2, hello_image(alloc)?.as_slice())?;
    enter(&mut folder)?;
    let opened = open_folder(alloc, &mut folder, SIZE)?;
    assert_eq!(rt; (opened.number, opened.up_number), (2, 0));
    assert!(rt; opened.up.is_none());
    Ok(())
}

#[test]
fn damage_has_the_number_of_its_generation(rt: HostRuntime) -> Result<(), Fail> {
    let alloc = rt.alloc();
    let image = empty_image(alloc)?;
    let cases: [(&[u8], &[u8], u32); 3] = [
        (image.as_slice(), b"short", 2),
        (b"short", image.as_slice(), 3),
        (b"short", b"short", 3),
    ];
    for (primary, upstream, name) in cases {
        let mut folder = failing(alloc, &[])?;
        set_generation(alloc, &mut folder, 3, primary)?;
        set_generation(alloc, &mut folder, 2, upstream)?;
        enter(&mut folder)?;
        let error = ImageError::Short;
        assert_eq!(rt;
            open_folder(alloc, &mut folder, SIZE).err(),
            Some(OpenError::Damaged { name, error })
        );
    }
    Ok(())
}

#[test]
fn all_but_the_two_highest_are_pruned(rt: HostRuntime) -> Result<(), Fail> {
    let cases: [(&[u32], u64); 5] = [
        (&[], 0),
        (&[7], 0),
        (&[LAST, 1], 0),
        (&[3, 10, 9], 1),
        (&[1, 9, 3, 10, 8, 2, 7], 5),
    ];
    for (numbers, count) in cases {
        let mut folder = locked_with(rt.alloc(), numbers, &[])?;
        assert_eq!(rt; prune(rt.alloc(), &mut folder), Ok(count));
        for number in numbers {
            let name = name_of(rt.alloc(), *number)?;
            let is_left = count == 0 || *number > 8;
            assert_eq!(rt; folder.file(name.list()).is_some(), is_left);
        }
    }
    Ok(())
}

#[test]
fn a_prune_that_stops_has_removed_the_lowest(rt: HostRuntime) -> Result<(), Fail> {
    // The calls are `enter`, `try_lock`, `names`, and the removals.
    let mut folder = locked_with(rt.alloc(), &[4, 2, 3, 1, 5], &[5])?;
    assert_eq!(rt; prune(rt.alloc(), &mut folder), Err(SaveError::FolderFault));
    assert_eq!(rt; folder.file(b"v1.1"), None);
    for name in ["v1.2", "v1.3", "v1.4", "v1.5"] {
        assert!(rt; folder.file(name.as_bytes()).is_some());
    }
    Ok(())
}

#[test]
fn half_of_a_limit_is_kept(rt: HostRuntime) {
    // 520 words are 4,160 bytes.
    assert!(rt; !needs_rotation(520, Some(8_321), false));
    assert!(rt; !needs_rotation(520, Some(8_320), false));
    assert!(rt; needs_rotation(520, Some(8_319), false));
    assert!(rt; needs_rotation(520, Some(0), false));
    assert!(rt; !needs_rotation(520, None, false));
    assert!(rt; needs_rotation(520, None, true));
    assert!(rt; needs_rotation(520, Some(8_320), true));
}

#[test]
fn a_rotation_adds_a_generation(rt: HostRuntime) -> Result<(), Fail> {
    let mut folder = locked_with(rt.alloc(), &[8, 9], &[])?;
    assert_eq!(rt; rotate(rt.alloc(), &mut folder, 9, b"new"), Ok(()));
    assert!(rt; has_bytes(&folder, b"v1.10", b"new"));
    assert!(rt; has_bytes(&folder, b"v1.9", b"old"));
    assert!(rt; has_bytes(&folder, b"v1.8", b"old"));
    Ok(())
}
