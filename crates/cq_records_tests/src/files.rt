//! Logs in files.
use crate::{count_records, fill};
use cq_disk::{OpenFault, TornWrites, Unknown, create, open};
use cq_records::Log;
use rand_xoshiro::Xoshiro256PlusPlus;
use rand_xoshiro::rand_core::SeedableRng;
use std::os::unix::fs::{MetadataExt, symlink};
use std::test::Fail;
use std::{fs, io};

const FOLDER: &str = "cq_records_tests_log";

const PATH: &str = "cq_records_tests_log/log";

const NAMES: &str = "cq_records_tests_names";

const FIRST: &str = "cq_records_tests_names/first";

const SECOND: &str = "cq_records_tests_names/second";

const LENGTH: usize = 10_000;

const SPARSE_FOLDER: &str = "cq_records_tests_sparse";

const SPARSE: &str = "cq_records_tests_sparse/log";

fn make_folder(rt: &HostRuntime, folder: &str) -> Result<(), Fail> {
    let _ = fs::remove_dir_all(rt, folder);
    fs::create_dir(rt, folder)?;
    Ok(())
}

fn is_busy<T>(opened: &Result<T, OpenFault>) -> bool {
    matches!(opened, Err(OpenFault::Busy))
}

#[test]
fn a_file_keeps_its_records(rt: HostRuntime) -> Result<(), Fail> {
    make_folder(&rt, FOLDER)?;
    create(&rt, PATH, LENGTH)?;
    let device = open(&rt, PATH, TornWrites::OldOrNew, Unknown)?;
    let again = open(&rt, PATH, TornWrites::OldOrNew, Unknown);
    assert!(rt; is_busy(&again));
    drop(again);
    let mut random = Xoshiro256PlusPlus::seed_from_u64(1);
    let filled = fill(rt.alloc(), Log::blank(device)?, &mut random)?;
    let acknowledged = filled.acknowledged;
    assert!(rt; acknowledged > 500);
    drop(filled);
    let device = open(&rt, PATH, TornWrites::Any, Unknown)?;
    assert_eq!(rt; count_records(rt.alloc(), device, 0)?, Some(acknowledged));
    fs::remove_dir_all(&rt, FOLDER)?;
    Ok(())
}

fn opens_as_no_file(rt: &HostRuntime, path: &str) -> bool {
    matches!(
        open(rt, path, TornWrites::OldOrNew, Unknown),
        Err(OpenFault::NotAFile)
    )
}

fn fails_with(made: &Result<(), OpenFault>, kind: io::ErrorKind) -> bool {
    match made {
        Err(OpenFault::Io(error)) => error.kind() == kind,
        _ => false,
    }
}

#[test]
fn a_file_has_one_name(rt: HostRuntime) -> Result<(), Fail> {
    make_folder(&rt, NAMES)?;
    assert!(rt; opens_as_no_file(&rt, NAMES));
    create(&rt, FIRST, 10)?;
    assert!(rt; fails_with(&create(&rt, FIRST, 10), io::ErrorKind::AlreadyExists));
    assert!(rt;
        fails_with(
            &create(&rt, "cq_records_tests_names/none/log", 10),
            io::ErrorKind::NotFound
        )
    );
    symlink(&rt, "first", SECOND)?;
    assert!(rt; opens_as_no_file(&rt, SECOND));
    fs::remove_file(&rt, SECOND)?;
    fs::hard_link(&rt, FIRST, SECOND)?;
    assert!(rt; opens_as_no_file(&rt, FIRST));
    assert_eq!(rt; fs::metadata(&rt, FIRST)?.len(), 10);
    fs::remove_dir_all(&rt, NAMES)?;
    Ok(())
}

#[test]
fn a_file_takes_no_space_before_it_is_written(rt: HostRuntime) -> Result<(), Fail> {
    make_folder(&rt, SPARSE_FOLDER)?;
    create(&rt, SPARSE, 1 << 30)?;
    let made = fs::metadata(&rt, SPARSE)?;
    assert_eq!(rt; made.len(), 1 << 30);
    assert!(rt; made.blocks() < 100);
    fs::remove_dir_all(&rt, SPARSE_FOLDER)?;
    Ok(())
}
