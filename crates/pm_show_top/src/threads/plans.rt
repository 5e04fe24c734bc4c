//! The plans of the cases.

/// Two callers on devices of their own: two islands.
pub static APART: &[u8] = b"device = [{name = 'a'}, {name = 'b'}]
caller = [{name = 'c', script = ['enable a', 'get_sync a']}, {name = 'e', script = ['enable b', 'get_sync b']}]";

/// The same with a caller that ties them to one island.
pub static TIED: &[u8] = b"device = [{name = 'a'}, {name = 'b'}]
caller = [{name = 'c', script = ['enable a', 'get_sync a']}, {name = 'e', script = ['enable b', 'get_sync b']},
{name = 'f', script = ['barrier a', 'barrier b']}]";

/// A device and its parent, with callbacks that take time, and delays.
pub static TIMED: &[u8] =
    b"device = [{name = 'a', suspend_ms = 3, resume_ms = 5}, {name = 'b', parent = 'a', suspend_ms = 3, resume_ms = 5}]
caller = [{name = 'c', script = ['enable a', 'enable b', 'delay 20', 'get_sync b', 'delay 30', 'put b']},
{name = 'e', script = ['delay 40', 'get_sync a', 'put_sync a']}]";

/// More lines than the plan allows.
pub static CUT: &[u8] = b"lines = 6
device = [{name = 'a'}, {name = 'b'}]
caller = [{name = 'c', script = ['enable a', 'get_sync a']}, {name = 'e', script = ['enable b', 'get_sync b']}]";

/// Two islands, of which one thread runs the second when the first is done.
pub static STAGGERED: &[u8] = b"device = [{name = 'a'}, {name = 'b'}]
caller = [{name = 'c', script = ['enable a', 'get_sync a']}, {name = 'e', script = ['delay 5', 'enable b', 'get_sync b']}]";

/// One caller and one device.
pub static ONE: &[u8] = b"device = [{name = 'a'}]
caller = [{name = 'c', script = ['enable a', 'get_sync a']}]";

/// The trace of it by one hand whose clock goes on by a second at each reading.
pub static SECONDS: &[u8] = b"0 c pm_call: enable a
1000 c pm_ret: enable a 0
2000 c pm_call: get_sync a
3000 c pm_get: a caller
4000 c rpm_resume: a flags-4 cnt-1  dep-0  auto-1 p-0 irq-0 child-0
5000 c pm_status: a resuming
6000 c pm_callback: a resume begin
7000 c pm_callback: a resume end 0
8000 c pm_status: a active
9000 c rpm_idle: a flags-1 cnt-1  dep-0  auto-1 p-0 irq-0 child-0
10000 c rpm_return_int: rpm_idle:a ret=-11
11000 c rpm_return_int: rpm_resume:a ret=0
12000 c pm_ret: get_sync a 0
";

/// A USB hub behind a host controller with a power domain, and a PHY that one of its devices needs.
pub static HUB: &[u8] = b"domain = [{name = 'pd'}]
device = [{name = 'phy', idle = [], suspend_ms = 3, resume_ms = 5},
{name = '0000:00:14.0', domain = 'pd', idle = [], suspend_ms = 3, resume_ms = 5},
{name = '1-1', parent = '0000:00:14.0', idle = [], suspend_ms = 3, resume_ms = 5},
{name = '1-1.1', parent = '1-1', idle = [], suspend_ms = 3, resume_ms = 5},
{name = '1-1.2', parent = '1-1', idle = [], suspend_ms = 3, resume_ms = 5}]
link = [{consumer = '1-1.2', supplier = 'phy'}]
caller = [{name = 'boot', script = ['enable phy', 'enable 0000:00:14.0', 'enable 1-1', 'enable 1-1.1', 'enable 1-1.2']},
{name = 'x', script = ['delay 100', 'get_sync 1-1.1', 'delay 20', 'put 1-1.1']},
{name = 'y', script = ['delay 100', 'get_sync 1-1.2', 'delay 30', 'put 1-1.2']}]";

/// Two callers that do the same.
pub static TWICE: &[u8] = b"device = [{name = 'a'}]
caller = [{name = 'c', script = ['get_noresume a', 'put_noidle a']}, {name = 'e', script = ['get_noresume a', 'put_noidle a']}]";

/// A caller that enables a device, and one that asks for it.
pub static ASKS: &[u8] = b"device = [{name = 'a'}]
caller = [{name = 'c', script = ['enable a', 'get_sync a', 'put a']}, {name = 'e', script = ['get_if_active a']}]";

/// A caller that waits for a second, and one that doesn't.
pub static LATER: &[u8] = b"device = [{name = 'a'}]
caller = [{name = 'c', script = ['enable a', 'delay 1000', 'get_sync a']}, {name = 'e', script = ['get_noresume a', 'put_noidle a']}]";
