//! Blocks on the way to a block of a file, by hand from file system(V): a small file has eight addresses of its own; a
//! large one has seven of indirect blocks of 256 addresses, and the eighth is that of a block of further indirect ones.
//! A small file that needs a ninth block becomes large, and its eight addresses move into its first indirect block.
use bmap_path::BlockName::{Data, Dbl, Ind};
use bmap_path::{BlockName, path};

// Whether the file is large, the block's number, and the names on the way.
static PATHS: [(bool, u16, &[BlockName]); 12] = [
    (false, 0, &[Data(0)]),
    (false, 7, &[Data(7)]),
    (false, 8, &[Ind(0), Data(8)]),
    (false, 255, &[Ind(0), Data(255)]),
    (false, 256, &[Ind(0), Ind(1), Data(256)]),
    (false, 300, &[Ind(0), Ind(1), Data(300)]),
    (false, 1792, &[Ind(0), Dbl, Ind(7), Data(1792)]),
    (true, 3, &[Ind(0), Data(3)]),
    (true, 256, &[Ind(1), Data(256)]),
    (true, 1791, &[Ind(6), Data(1791)]),
    (true, 2048, &[Dbl, Ind(8), Data(2048)]),
    (true, 32767, &[Dbl, Ind(127), Data(32767)]),
];

fn holds(large: bool, number: u16, names: &[BlockName]) -> bool {
    number <= 32767 && path(large, number).as_slice() == names
}

#[test]
fn blocks_on_the_way_have_these_names(rt: HostRuntime) {
    for (k, (large, number, names)) in PATHS.iter().enumerate() {
        assert!(rt; holds(*large, *number, names), "row {k}");
    }
}
