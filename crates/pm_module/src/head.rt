//! What stands before the tables: what the module is, what it includes, and the types of the tables' rows.

/// The text before the tables, which names no plan.
pub const HEAD: &[u8] = b"// SPDX-License-Identifier: GPL-2.0
/*
 * A plan of pm_top as a module, written by \"pm_lab kernel\".
 *
 * It makes the plan's power domains, devices and links, runs the script of each caller on a thread
 * of its own, and tells what came of it. Each step goes into the trace, beside the kernel's own
 * rpm_* events. At the end the answer of each command and the state of each device go into the
 * trace and into the log.
 *
 *\techo 1 >/sys/kernel/tracing/events/rpm/enable
 *\tinsmod pm_lab.ko
 *\tdmesg | grep pm_lab:
 *\tcat /sys/kernel/tracing/trace
 */
#define pr_fmt(fmt) \"pm_lab: \" fmt

#include <linux/atomic.h>
#include <linux/completion.h>
#include <linux/delay.h>
#include <linux/device.h>
#include <linux/hrtimer.h>
#include <linux/jiffies.h>
#include <linux/kernel.h>
#include <linux/kthread.h>
#include <linux/ktime.h>
#include <linux/module.h>
#include <linux/pm_domain.h>
#include <linux/pm_runtime.h>
#include <linux/sched.h>
#include <linux/sched/task.h>
#include <linux/slab.h>
#include <linux/spinlock.h>
#include <linux/version.h>
#include <linux/workqueue.h>

/* The commands of scripts, each by the word that it has in a plan. */
enum lab_helper {
\tLAB_END,\t/* behind the last command */
\tLAB_get_sync,
\tLAB_get,
\tLAB_get_noresume,
\tLAB_get_if_in_use,
\tLAB_get_if_active,
\tLAB_resume,
\tLAB_request_resume,
\tLAB_put,
\tLAB_put_sync,
\tLAB_put_noidle,
\tLAB_put_autosuspend,
\tLAB_put_sync_suspend,
\tLAB_put_sync_autosuspend,
\tLAB_idle,
\tLAB_request_idle,
\tLAB_suspend,
\tLAB_autosuspend,
\tLAB_request_autosuspend,
\tLAB_schedule_suspend,
\tLAB_enable,
\tLAB_disable,
\tLAB_barrier,
\tLAB_set_active,
\tLAB_set_suspended,
\tLAB_allow,
\tLAB_forbid,
\tLAB_mark_last_busy,
\tLAB_use_autosuspend,
\tLAB_dont_use_autosuspend,
\tLAB_set_autosuspend_delay,
\tLAB_delay,
\tLAB_ignore_children,
\tLAB_link_add,
\tLAB_link_del,
};

struct lab_domain {
\tconst char *name;
\tint parent;\t\t/* its place in the table, or -1 */
\tbool always_on;
};

#define LAB_NO_MORE\t1\t/* behind the last code; a code is 0 or below */

struct lab_callback {
\tunsigned int ms;\t/* how long it takes */
\tconst int *codes;\t/* what it answers in turn, and 0 after the last */
};

struct lab_device {
\tconst char *name;
\tint parent;\t\t/* its place in the table, or -1 */
\tint domain;\t\t/* the same */
\tbool ignore_children;
\tbool no_callbacks;
\tbool marks_busy;\t/* its callbacks mark it as last busy */
\tbool has_idle;
\tstruct lab_callback idle;
\tstruct lab_callback suspend;
\tstruct lab_callback resume;
};

struct lab_link {
\tint consumer;
\tint supplier;
\tbool pm_runtime;
\tbool later;\t\t/* made by link_add alone */
};

struct lab_command {
\tenum lab_helper helper;
\tint device;
\tint number;\t\t/* milliseconds, a switch, or the place of a supplier */
\tconst char *call;
\tconst char *ret;
};

struct lab_caller {
\tconst char *name;
\tconst struct lab_command *script;
};

/* The plan. An empty row ends each table. */

";
