//! Names of privileges, their levels, and sets of privileges.
use priv_sets::{DynSet, Dynamic, Level, Plain, Privilege, Static, by_name, name};
use std::test::Fail;

// A name in another case and in capitals, and the levels that the privilege has.
struct Case {
    words: &'static str,
    name: &'static str,
    levels: &'static str,
}

// A letter for each level: column, table, routine, schema, global.
const COLUMN: &str = "ctsg";

const TABLE: &str = "tsg";

const SCHEMA: &str = "sg";

const ROUTINE: &str = "rsg";

const GLOBAL: &str = "g";

const GRANTING: &str = "trsg";

#[rattlefmt::skip]
static CASES: [Case; 51] = [
    Case { words: "Select", name: "SELECT", levels: COLUMN },
    Case { words: "insert", name: "INSERT", levels: COLUMN },
    Case { words: "UpDaTe", name: "UPDATE", levels: COLUMN },
    Case { words: "Delete", name: "DELETE", levels: TABLE },
    Case { words: "create", name: "CREATE", levels: TABLE },
    Case { words: "DrOp", name: "DROP", levels: TABLE },
    Case { words: "Reload", name: "RELOAD", levels: GLOBAL },
    Case { words: "shutdown", name: "SHUTDOWN", levels: GLOBAL },
    Case { words: "PrOcEsS", name: "PROCESS", levels: GLOBAL },
    Case { words: "File", name: "FILE", levels: GLOBAL },
    Case { words: "references", name: "REFERENCES", levels: COLUMN },
    Case { words: "InDeX", name: "INDEX", levels: TABLE },
    Case { words: "Alter", name: "ALTER", levels: TABLE },
    Case { words: "show databases", name: "SHOW DATABASES", levels: GLOBAL },
    Case { words: "SuPeR", name: "SUPER", levels: GLOBAL },
    Case { words: "Create Temporary Tables", name: "CREATE TEMPORARY TABLES", levels: SCHEMA },
    Case { words: "lock tables", name: "LOCK TABLES", levels: SCHEMA },
    Case { words: "ExEcUtE", name: "EXECUTE", levels: ROUTINE },
    Case { words: "Replication Slave", name: "REPLICATION SLAVE", levels: GLOBAL },
    Case { words: "replication client", name: "REPLICATION CLIENT", levels: GLOBAL },
    Case { words: "CrEaTe vIeW", name: "CREATE VIEW", levels: TABLE },
    Case { words: "Show View", name: "SHOW VIEW", levels: TABLE },
    Case { words: "create routine", name: "CREATE ROUTINE", levels: SCHEMA },
    Case { words: "AlTeR RoUtInE", name: "ALTER ROUTINE", levels: ROUTINE },
    Case { words: "Create User", name: "CREATE USER", levels: GLOBAL },
    Case { words: "event", name: "EVENT", levels: SCHEMA },
    Case { words: "TrIgGeR", name: "TRIGGER", levels: TABLE },
    Case { words: "Create Tablespace", name: "CREATE TABLESPACE", levels: GLOBAL },
    Case { words: "create role", name: "CREATE ROLE", levels: GLOBAL },
    Case { words: "DrOp rOlE", name: "DROP ROLE", levels: GLOBAL },
    Case { words: "Grant Option", name: "GRANT OPTION", levels: GRANTING },
    Case { words: "application_password_admin", name: "APPLICATION_PASSWORD_ADMIN", levels: GLOBAL },
    Case { words: "AuDiT_AdMiN", name: "AUDIT_ADMIN", levels: GLOBAL },
    Case { words: "Backup_Admin", name: "BACKUP_ADMIN", levels: GLOBAL },
    Case { words: "binlog_admin", name: "BINLOG_ADMIN", levels: GLOBAL },
    Case { words: "BiNlOg_eNcRyPtIoN_AdMiN", name: "BINLOG_ENCRYPTION_ADMIN", levels: GLOBAL },
    Case { words: "Clone_Admin", name: "CLONE_ADMIN", levels: GLOBAL },
    Case { words: "connection_admin", name: "CONNECTION_ADMIN", levels: GLOBAL },
    Case { words: "EnCrYpTiOn_kEy_aDmIn", name: "ENCRYPTION_KEY_ADMIN", levels: GLOBAL },
    Case { words: "Group_Replication_Admin", name: "GROUP_REPLICATION_ADMIN", levels: GLOBAL },
    Case { words: "persist_ro_variables_admin", name: "PERSIST_RO_VARIABLES_ADMIN", levels: GLOBAL },
    Case { words: "RePlIcAtIoN_ApPlIeR", name: "REPLICATION_APPLIER", levels: GLOBAL },
    Case { words: "Replication_Slave_Admin", name: "REPLICATION_SLAVE_ADMIN", levels: GLOBAL },
    Case { words: "resource_group_admin", name: "RESOURCE_GROUP_ADMIN", levels: GLOBAL },
    Case { words: "ReSoUrCe_gRoUp_uSeR", name: "RESOURCE_GROUP_USER", levels: GLOBAL },
    Case { words: "Role_Admin", name: "ROLE_ADMIN", levels: GLOBAL },
    Case { words: "session_variables_admin", name: "SESSION_VARIABLES_ADMIN", levels: GLOBAL },
    Case { words: "SeT_UsEr_iD", name: "SET_USER_ID", levels: GLOBAL },
    Case { words: "System_User", name: "SYSTEM_USER", levels: GLOBAL },
    Case { words: "system_variables_admin", name: "SYSTEM_VARIABLES_ADMIN", levels: GLOBAL },
    Case { words: "Xa_rEcOvEr_aDmIn", name: "XA_RECOVER_ADMIN", levels: GLOBAL },
];

// Texts that only resemble a name.
#[rattlefmt::skip]
static NEAR_MISSES: [&str; 26] = [
    "CREATE  USER",
    "CREATE USERS",
    "CREATE USE",
    "CREATEUSER",
    "USER",
    " SELECT",
    "SELECT ",
    "SELECT\0",
    "LOCK_TABLES",
    "LOCK\tTABLES",
    "GRANT",
    "GRANT  OPTION",
    "GRANT OPTIONS",
    "TEMPORARY TABLES",
    "CREATE TEMPORARY",
    "SHOW",
    "ALL",
    "ALL PRIVILEGES",
    "USAGE",
    "PROXY",
    "AUDIT ADMIN",
    "AUDIT_ADMIN ",
    "ROLE_ADMINS",
    "SYSTEM",
    "ſelect",
    "",
];

// Whether the privilege has just the levels of the letters.
fn has_levels(privilege: &Privilege, levels: &str) -> bool {
    privilege.has_level(Level::Column) == levels.contains('c')
        && privilege.has_level(Level::Table) == levels.contains('t')
        && privilege.has_level(Level::Routine) == levels.contains('r')
        && privilege.has_level(Level::Schema) == levels.contains('s')
        && privilege.has_level(Level::Global) == levels.contains('g')
}

fn is_read(case: &Case) -> bool {
    match by_name(case.words) {
        Some(privilege) => has_levels(&privilege, case.levels) && name(privilege) == case.name,
        None => false,
    }
}

#[test]
fn names_are_read_in_any_case_and_have_their_levels(rt: HostRuntime) {
    for case in &CASES {
        assert!(rt; is_read(case), "at {}", case.words);
    }
    for words in &NEAR_MISSES {
        assert!(rt; by_name(words).is_none(), "at {words}");
    }
}

#[test]
fn a_name_is_printed(rt: HostRuntime) -> Result<(), Fail> {
    let lock = Privilege::Plain(Plain::new(16));
    let role = Privilege::Dynamic(Dynamic::new(14));
    let text = format!(in rt.alloc(); "<{lock}> <{lock:>12}> {role}")?;
    assert_eq!(rt; text.as_str(), "<LOCK TABLES> < LOCK TABLES> ROLE_ADMIN");
    Ok(())
}

#[test]
fn a_set_holds_what_was_added(rt: HostRuntime) {
    let event = Plain::new(25);
    let set = Static::SELECT.union(Static::of(event)).with(Plain::new(30));
    assert_eq!(rt; set.bits(), 0x4200_0001);
    assert_eq!(rt; Static::from_bits(set.bits()), Some(set));
    assert_eq!(rt; set.difference(Static::EVENT), set.without(event));
    assert_eq!(rt;
        set.intersection(Static::at_level(Level::Column)),
        Static::SELECT
    );
    assert!(rt; !Static::all_at_level(Level::Table).contains_all(set));
    assert_eq!(rt; Static::first_missing(set, Static::SELECT), Some(event));
    let mut privileges = set.privileges();
    assert_eq!(rt; privileges.next(), Some(Plain::new(0)));
    assert_eq!(rt; privileges.next(), Some(event));
}

#[test]
fn a_dynamic_set_holds_what_was_added(rt: HostRuntime) {
    let audit = Dynamic::new(1);
    let role = Dynamic::new(14);
    let set = DynSet::none().with(role, true).with(audit, false);
    assert!(rt; set.has(audit) && set.can_grant(role) && !set.can_grant(audit));
    assert_eq!(rt; DynSet::from_bits(0x4002, 0x4000), Some(set));
    assert_eq!(rt; DynSet::from_bits(0x4002, 0x4001), None);
    assert_eq!(rt;
        DynSet::first_missing(DynSet::all(), set),
        Some(Dynamic::new(0))
    );
    assert_eq!(rt;
        DynSet::first_missing(set, set.without_grant_options()),
        Some(role)
    );
    assert_eq!(rt; set.without(role).union(set), set);
    assert_eq!(rt; set.privileges().next(), Some(audit));
}
