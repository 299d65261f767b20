//! The names that calls are given: `namei` in Lions' Commentary, `nami.c`.
ghost use Rattle.std.specs.Prelude.{◌≡◌, ◌<◌, ◌≤◌, ℕ, IsSome, IfOk, slice_index};
ghost use Rattle.fs_nodes.specs.Keys.{node_numbered};
ghost use Rattle.fs_nodes.specs.FileSystem.{IsFileSystem};
ghost use Rattle.fs_tree.specs.Finding.{inodes_of, find_in};
ghost use Rattle.fs_tree.specs.Mounting.{AreMounts};
ghost use Rattle.fs_tree.specs.Name.{name_at};
ghost use Rattle.sys_files.specs.Handed.{user_of};

use fs_tree::{NameBytes, Tree, User};
use u_area::UArea;
use v6_base::{Errno, Space};

/// The effective user and group of a process.
pub(crate) fn user_of(u: &UArea) -> User
    ensures { result ≡ user_of u.now }
{
    User {
        uid: u.uid,
        gid: u.gid,
    }
}

/// Finds the inode of the name at an address, and refers to it once more.
///
/// # Errors
///
/// Those of `Tree::find`.
pub(crate) fn find_name<S: Space>(
    tree: &mut Tree,
    u: &UArea,
    space: &S,
    name: u16,
) -> Result<u16, Errno>
    requires directory { 0 < slice_index tree.old.nodes.references u.now.dir }
    requires few { (i : ℕ) → slice_index tree.old.nodes.references i ≤ 65530 }
    requires mounts { AreMounts tree.old.mounts tree.old.nodes.store }
    ensures form { IsFileSystem tree.old.nodes }
    ensures found { result
        ≡ (find_in (inodes_of tree.old.nodes) tree.old.mounts (user_of u.now) u.now.dir
        (name_at (S.image space.now) name)).answer }
    ensures inodes { inodes_of tree.new.nodes
        ≡ (find_in (inodes_of tree.old.nodes) tree.old.mounts (user_of u.now) u.now.dir
        (name_at (S.image space.now) name)).inodes }
    ensures marks { tree.new.marks ≡ tree.old.marks }
    ensures mounts { tree.new.mounts ≡ tree.old.mounts }
    ensures store { tree.new.nodes.store ≡ tree.old.nodes.store }
    ensures blocks { tree.new.nodes.blocks ≡ tree.old.nodes.blocks }
    ensures node { IfOk result (λ ino. IsSome (node_numbered tree.new.nodes.store ino)) }
    ensures referred { IfOk result (λ ino. 0 < slice_index tree.new.nodes.references ino) }
{
    tree.nodes.see();
    tree.find(u.dir, user_of(u), NameBytes::at(space, name))
}
