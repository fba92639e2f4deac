/// The program's version, which `deparohi --version` says and the package has: the one place for it.
pub const VERSION: &str = "0.1.0";
