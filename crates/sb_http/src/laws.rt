//! Laws: what follows from the definitions alone. Their functions do nothing.
ghost use Rattle.std.specs.Prelude.{◌≡◌, ℕ, List, false, Ok, Err};
ghost use Rattle.http.specs.declared.request.Request as requests;
ghost use Rattle.http.specs.Request.{head_of};
ghost use Rattle.sb_http.specs.declared.operation.Operation as asking;
ghost use Rattle.sb_http.specs.declared.operation.Door as doors;
ghost use Rattle.sb_http.specs.Acts.{Act, OnlyReads};
ghost use Rattle.sb_http.specs.Answers.{IsCallFor};
ghost use Rattle.sb_http.specs.Hosts.{names_local_host};
ghost use Rattle.sb_http.specs.Requests.{asked_by, is_writing};

use crate::operation::{Door, Refusal};

/// Law: whatever is asked for at a port, the backend is called for nothing that writes.
pub fn ports_only_read()
    ensures { (request : requests.Request (List ℕ)) (asked : asking.Operation) (act : Act)
        → asked_by Door.Port request ≡ Ok asked → IsCallFor asked act → OnlyReads act }
{}

/// Law: whatever a request asks for by another method than `PUT` and `DELETE`, the backend is called for nothing that writes.
pub fn other_methods_only_read()
    ensures { (door : doors.Door) (request : requests.Request (List ℕ)) (asked : asking.Operation) (act : Act)
        → is_writing (head_of request).method ≡ false → asked_by door request ≡ Ok asked → IsCallFor asked act → OnlyReads act }
{}

/// Law: at a port, a request to another host asks for nothing.
pub fn ports_take_local_hosts()
    ensures { (request : requests.Request (List ℕ)) → names_local_host request ≡ false → asked_by Door.Port request ≡ Err Refusal.OtherHost }
{}
