use family::{Family, StrippedField};
use sector_job::{Plan, SectorResult};
use sector_module::Generators;

fn is_shared<T: Send + Sync>() {}

#[test]
fn threads_share_families_and_pieces() {
    is_shared::<Family>();
    is_shared::<StrippedField>();
    is_shared::<Generators>();
    is_shared::<Plan>();
    is_shared::<SectorResult>();
}
