// What the system knows of an open file: whether it is one, and its mode and owner, to be given to another. No contract can say what the
// system knows, so the functions here are proved safe, and tried by running the programs above them.
#![tactic(auto)]

use std::fs::{File, Permissions};
use std::io::Result;
use std::os::unix::fs::{MetadataExt, PermissionsExt, fchown};

// Whether it is a file, and not a device or a pipe. Fails where the system does not say.
pub fn is_file(file: &File) -> Result<bool> {
    Ok(file.metadata()?.is_file())
}

// The bits of a mode that are rights, twelve of them; those above tell the kinds of files apart.
const RIGHTS: u32 = 4096;

// The rights without those to run as the owner or the group.
const PLAIN_RIGHTS: u32 = 512;

fn set_rights(file: &File, mode: u32) {
    let _ = file.set_permissions(Permissions::from_mode(mode));
}

// Gives an open file the owner and the rights of another, as far as the system allows. The owner comes first, since a change of owner may
// change the rights. Where the owner can not be kept, nobody runs the file as its owner.
pub fn keep(old: &File, new: &File) {
    let Ok(status) = old.metadata() else {
        return;
    };
    let mode = status.mode();
    let group = Some(status.gid());
    if fchown(new, Some(status.uid()), group).is_ok() {
        set_rights(new, mode % RIGHTS);
    } else {
        let _ = fchown(new, None, group);
        set_rights(new, mode % PLAIN_RIGHTS);
    }
}
